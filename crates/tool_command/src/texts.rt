// The longer texts of the command.

pub const USAGE: &str = "\
Usage: axcut COMMAND [OPTION].. [--] [FILE]
       axcut step start [OPTION].. [--] IMAGE STORE [VALUE]..
       axcut step run|show [OPTION].. [--] IMAGE STORE

Reads the program image FILE, or standard input where there is none or it is -.

  read         asks questions 1 to 5: is it an image?
  check        asks questions 1 to 10: is it a source program in scope?
  linearize    writes the image of the linearized program (1 to 12)
  annotate N   prints the free variables of record N, counted from 0 (1 to 7, 13, 12)
  dump         prints the program as a listing (1 to 5; with --annotations 1 to 7)
  step start   writes the state of a start to the file STORE (1 to 10, 14, 15; with
               --linear 1 to 5, 14, 15); a VALUE for each parameter, -7 or outside:2
  step run     makes steps from the state in STORE, prints their events and writes the
               new state (the same)
  step show    prints the state in STORE (the same, but for 15)

  -o FILE        writes to FILE; nothing is written where the image is refused
  -o -           writes to standard output; an image goes to a terminal only so
  --raw          annotate: the bytes of the annotation instead of text
  --annotations  dump: the free variables behind each statement that has them
  --records      dump: the index of each record
  --types        dump: chirality and type also where a variable is used
  --names FILE   dump, step: spellings, a line each: a name number, a space, the spelling
  --linear       step: the linear machine instead of the source machine
  --definition N step start: the definition, counted from 0, which is meant without it
  --steps N      step run: at most so many steps, 1 without it
  --             ends the options: FILE may begin with a -
  --help, --version

Exit status: 0 accepted; 1 refused: standard error has the file, the question's number,
what is wrong and, where it is about one, the record and the variable's ID;
2 the command line is wrong, or a file cannot be read or written.
";

pub const VERSION: &str = "axcut 0.1.0, image layout 1\n";
