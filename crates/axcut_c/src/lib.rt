// The library's functions for C and Rust, under the same names and with the same contracts. include/axcut.h says what a caller must see to.
// Parameters stay side by side: C callers give them in this order. (A crate of its own: decision 89.)
#![tactic(auto)]

ghost use Rattle.std.specs.Prelude.{◌≡◌, []};
ghost use Rattle.image_spec.specs.Layout.{layout1};
ghost use Rattle.image_spec.specs.Answers.{Reports};
ghost use Rattle.image_spec.specs.Reading.{read_call};
ghost use Rattle.scope_spec.specs.Calls.{check_call, annotate_call, Told};
ghost use Rattle.pass_answer_spec.specs.Calls.{linearize_call};
ghost use Rattle.step_spec.specs.Calls.{source_stepper, linear_stepper, unchanged, start_call, step_call_lem};
ghost use Rattle.axcut.specs.Steps.{step_result};

// Questions 1 to 5.
#[unsafe(no_mangle)]
pub extern "C" fn axcut_read(image: &[u8], length: &mut usize, max_id: &mut u32) -> u32
    ensures { Reports (read_call image.now) result length.new max_id.new }
{
    axcut::axcut_read(image, length, max_id)
}

// Questions 1 to 10.
#[unsafe(no_mangle)]
pub extern "C" fn axcut_check(image: &[u8], length: &mut usize, max_id: &mut u32) -> u32
    ensures { Reports (check_call image.now) result length.new max_id.new }
{
    axcut::axcut_check(image, length, max_id)
}

// Questions 1 to 7, 13 and 12. Writes the annotation of the record with this index.
#[unsafe(no_mangle)]
pub extern "C" fn axcut_annotate(
    image: &[u8],
    record: usize,
    out: &mut [u8],
    length: &mut usize,
    max_id: &mut u32,
) -> u32
    ensures { Told (annotate_call image.now «record» out.old) result length.new max_id.new out.old out.new }
{
    axcut::axcut_annotate(image, record, out, length, max_id)
}

// Questions 1 to 12. Writes the linearized image.
#[unsafe(no_mangle)]
pub extern "C" fn axcut_linearize(
    image: &[u8],
    out: &mut [u8],
    length: &mut usize,
    max_id: &mut u32,
) -> u32
    ensures { Told (linearize_call image.now out.old) result length.new max_id.new out.old out.new }
{
    axcut::axcut_linearize(image, out, length, max_id)
}

// Questions 1 to 10, 14 and 15. Writes the state before the first step of the source machine to the store.
#[unsafe(no_mangle)]
pub extern "C" fn axcut_source_start(
    image: &[u8],
    definition: usize,
    values: &[u8],
    store: &mut [u8],
) -> u32
    ensures { unchanged result store.new [] ≡ start_call (source_stepper layout1) image.now definition values.now store.old }
{
    axcut::axcut_source_start(image, definition, values, store)
}

// Questions 1 to 10, 14 and 15. At most so many steps of the source machine from the state in the store; the events go to the beginning of
// their buffer.
#[unsafe(no_mangle)]
pub extern "C" fn axcut_source_step(
    image: &[u8],
    steps: u64,
    store: &mut [u8],
    events: &mut [u8],
    made: &mut u64,
    length: &mut usize,
) -> u32
    ensures { step_result result made.new length.new store.new events.new ≡ step_call_lem (source_stepper layout1) image.now steps store.old events.old }
{
    axcut::axcut_source_step(image, steps, store, events, made, length)
}

// Questions 1 to 5, 14 and 15. As axcut_source_start, for the linear machine.
#[unsafe(no_mangle)]
pub extern "C" fn axcut_linear_start(
    image: &[u8],
    definition: usize,
    values: &[u8],
    store: &mut [u8],
) -> u32
    ensures { unchanged result store.new [] ≡ start_call (linear_stepper layout1) image.now definition values.now store.old }
{
    axcut::axcut_linear_start(image, definition, values, store)
}

// Questions 1 to 5, 14 and 15. As axcut_source_step, for the linear machine.
#[unsafe(no_mangle)]
pub extern "C" fn axcut_linear_step(
    image: &[u8],
    steps: u64,
    store: &mut [u8],
    events: &mut [u8],
    made: &mut u64,
    length: &mut usize,
) -> u32
    ensures { step_result result made.new length.new store.new events.new ≡ step_call_lem (linear_stepper layout1) image.now steps store.old events.old }
{
    axcut::axcut_linear_step(image, steps, store, events, made, length)
}
