// The program image that the command is about, and what the library answers of it.
use crate::failure::Failure;
use crate::files;
use tool_arguments::request::Input;
use tool_finding::finding::find;
use try_building::refusal::Refusal;

// An image has fewer bytes.
const MOST: usize = 65536;

#[derive(Drop)]
pub struct Program<'a> {
    file: Input<'a>,
    bytes: Vec<u8>,
}

impl<'a> Program<'a> {
    pub fn take(rt: &HostRuntime, file: Input<'a>) -> Result<Program<'a>, Failure<'a>> {
        let bytes = files::read(rt, file, MOST)?;
        Ok(Program { file, bytes })
    }

    pub fn bytes(&self) -> &[u8] {
        self.bytes.as_slice()
    }

    // A refusal of it, with its place; that of question 13 is the record that was asked for, where one was.
    pub fn refused(&self, refusal: Refusal, record: Option<usize>) -> Failure<'a> {
        Failure::Refused {
            file: self.file,
            refusal,
            place: find(self.bytes(), refusal, record),
        }
    }

    fn accepted(&self, number: u32, record: Option<usize>) -> Result<(), Failure<'a>> {
        Refusal::check(number).map_err(|refusal| self.refused(refusal, record))
    }

    // Questions 1 to 5, and its max_id.
    // (A function for each call, here and below: of a call that is handed in it would be asked that it can be made with whatever it is lent.)
    pub fn read(&self) -> Result<u32, Failure<'a>> {
        let mut length = 0;
        let mut max_id = 0;
        let number = axcut::axcut_read(self.bytes(), &mut length, &mut max_id);
        self.accepted(number, None)?;
        Ok(max_id)
    }

    // Questions 1 to 10, and its max_id.
    pub fn check(&self) -> Result<u32, Failure<'a>> {
        let mut length = 0;
        let mut max_id = 0;
        let number = axcut::axcut_check(self.bytes(), &mut length, &mut max_id);
        self.accepted(number, None)?;
        Ok(max_id)
    }

    // The image of the linearized program, in this buffer.
    pub fn linearize<'o>(&self, out: &'o mut [u8]) -> Result<&'o [u8], Failure<'a>> {
        let mut length = 0;
        let mut max_id = 0;
        let number = axcut::axcut_linearize(self.bytes(), out, &mut length, &mut max_id);
        self.accepted(number, None)?;
        Ok(&out[..length.min(out.len())])
    }

    // The annotation of a record, in this buffer.
    pub fn annotate<'o>(&self, record: usize, out: &'o mut [u8]) -> Result<&'o [u8], Failure<'a>> {
        let mut length = 0;
        let mut max_id = 0;
        let number = axcut::axcut_annotate(self.bytes(), record, out, &mut length, &mut max_id);
        self.accepted(number, Some(record))?;
        Ok(&out[..length.min(out.len())])
    }

    // Questions 1 to 7: those of an annotation, but for question 13, which comes behind them.
    pub fn ask_first_seven(&self) -> Result<(), Failure<'a>> {
        let mut length = 0;
        let mut max_id = 0;
        let bytes = self.bytes();
        let number = axcut::axcut_annotate(
            bytes,
            usize::MAX,
            &mut io::buffer(),
            &mut length,
            &mut max_id,
        );
        match Refusal::check(number) {
            Ok(()) | Err(Refusal::Place) => Ok(()),
            Err(refusal) => Err(self.refused(refusal, None)),
        }
    }
}
