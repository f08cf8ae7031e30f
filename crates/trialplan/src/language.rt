// The language of scripts, as `--help` prints it.

/// All lines of the language.
pub const LANGUAGE: &str = "\
The script is read from standard input, one call or question a line. A line that
is empty or begins with # is passed over.

Before all calls:
  levels 2                        or 3; it stands first; without it 2
  memory BYTES COUNTS WORDS       what the questions are lent, each at most 65536;
                                  without it, as much as every answer takes

Calls on an open plan. A new plan is open, and has one factor and no words:
  start FACTORS                   so many factors, and no words
  read FILE                       what a plan file holds
  admit SIDE WORD                 a word more at the end of a list
  strike SIDE PLACE               the word at a place, from 1, is struck
  settle                          the plan can be asked, and changes no more

Calls on a settled plan:
  reopen                          the plan is open again
  factors                         how many factors
  counts                          how many defining words, how many block words
  word SIDE PLACE                 the word at a place, from 1
  list SIDE                       all words of a list
  generators SIDE PREFERENCE      the best generators
  scored-generators SIDE SCORE    the same, and their scores
  pattern                         the wordlength pattern
  resolution                      the resolution and its count
  alias WORD MEMBER               a member, from 0, of the alias set of a word
  alias-set WORD                  the alias set of a word
  page                            the trial page
  write FILE                      the plan file; written after all was carried out

Calls on a settled plan of two levels:
  clear                           how many pairs of factors are clear, and which
  run NUMBER                      a run, from 0
  runs FIRST COUNT                so many runs from one on, at most 65536 at once
  block-number RUN WORD..         the block number of a run under some words

SIDE        defining | block
WORD, RUN   a code in base ten, or letters: A to Z and a to f in this order; with
            three levels a digit 2 stands behind its letter, as in AB2D
PREFERENCE  ONE | ONE then ONE
ONE         NAME | reversed NAME
NAME        shortest | longest | cheapest COST.. | least-aberration
SCORE       shortest | cheapest COST..
COST        from 0 to 65535; at most 32, factor 1 first; 0 for those left out

For each call its line is printed, a colon, and the answer: `done`, numbers, `none`
without a resolution, or `refused` and the number of the refusal: 1 factors not 1 to
32, 2 illegal code, 3 generated already, 4 past the limit of words, 5 no word at this
place, 6 memory too short, 7 file cut short, 8 no mark, 9 another version, 10 other
levels, 11 bytes behind the file, 12 past the last. The page stands below its line.

Files are read before anything is carried out. The status is 0 where all was, and 1
where a line is not understood, a file fails, or there is no such call on the plan.";
