//! Laws of the command line.

ghost use Rattle.std.specs.Prelude.{◌≡◌, ◌∷◌, true, false, [], codes};
ghost use Rattle.clap.specs.Words.{takes};
ghost use Rattle.bufr_tool.specs.CommandLines.{collecting_words, commands, compressed_words, flag_of};
ghost use Rattle.bufr_tool.specs.CommandLines.{line_words, command_of, value_of, values_of};
ghost use Rattle.bufr_tool.specs.declared.lines.Command.TheVariants.{Show, Check, Encode, Add, Merge};

/// States that `clap` takes a line of `show`, and finds its command and its paths.
pub fn lines_of_show()
    ensures taken { takes commands (line_words (codes "show")) ≡ true }
    ensures command { command_of (line_words (codes "show")) ≡ Show }
    ensures b { value_of (codes "b") (line_words (codes "show")) ≡ codes "elements.csv" }
    ensures d { value_of (codes "d") (line_words (codes "show")) ≡ codes "sequences.csv" }
    ensures inputs { values_of (codes "input") (line_words (codes "show"))
        ≡ codes "bulletin" ∷ [] }
{}

/// States that `clap` takes a line of `check`, and finds its command and its paths.
pub fn lines_of_check()
    ensures taken { takes commands (line_words (codes "check")) ≡ true }
    ensures command { command_of (line_words (codes "check")) ≡ Check }
    ensures b { value_of (codes "b") (line_words (codes "check")) ≡ codes "elements.csv" }
    ensures d { value_of (codes "d") (line_words (codes "check")) ≡ codes "sequences.csv" }
    ensures inputs { values_of (codes "input") (line_words (codes "check"))
        ≡ codes "bulletin" ∷ [] }
{}

/// States that `clap` takes a line of `encode` without the flag.
pub fn lines_of_encode()
    ensures taken { takes commands (line_words (codes "encode")) ≡ true }
    ensures command { command_of (line_words (codes "encode")) ≡ Encode }
    ensures b { value_of (codes "b") (line_words (codes "encode")) ≡ codes "elements.csv" }
    ensures d { value_of (codes "d") (line_words (codes "encode")) ≡ codes "sequences.csv" }
    ensures compressed { flag_of (codes "compressed") (line_words (codes "encode")) ≡ false }
    ensures inputs { values_of (codes "input") (line_words (codes "encode"))
        ≡ codes "bulletin" ∷ [] }
{}

/// States that `clap` takes a line of `encode` with the flag.
pub fn lines_of_compressed_encode()
    ensures taken { takes commands compressed_words ≡ true }
    ensures command { command_of compressed_words ≡ Encode }
    ensures b { value_of (codes "b") compressed_words ≡ codes "elements.csv" }
    ensures d { value_of (codes "d") compressed_words ≡ codes "sequences.csv" }
    ensures compressed { flag_of (codes "compressed") compressed_words ≡ true }
    ensures inputs { values_of (codes "input") compressed_words
        ≡ codes "bulletin" ∷ [] }
{}

/// States that `clap` takes a line of `add`, and finds its archive and two inputs.
pub fn lines_of_add()
    ensures taken { takes commands (collecting_words (codes "add")) ≡ true }
    ensures command { command_of (collecting_words (codes "add")) ≡ Add }
    ensures b { value_of (codes "b") (collecting_words (codes "add")) ≡ codes "elements.csv" }
    ensures d { value_of (codes "d") (collecting_words (codes "add")) ≡ codes "sequences.csv" }
    ensures out { value_of (codes "out") (collecting_words (codes "add")) ≡ codes "archive" }
    ensures inputs { values_of (codes "input") (collecting_words (codes "add"))
        ≡ codes "first" ∷ codes "second" ∷ [] }
{}

/// States that `clap` takes a line of `merge`, and finds its archive and two inputs.
pub fn lines_of_merge()
    ensures taken { takes commands (collecting_words (codes "merge")) ≡ true }
    ensures command { command_of (collecting_words (codes "merge")) ≡ Merge }
    ensures b { value_of (codes "b") (collecting_words (codes "merge")) ≡ codes "elements.csv" }
    ensures d { value_of (codes "d") (collecting_words (codes "merge")) ≡ codes "sequences.csv" }
    ensures out { value_of (codes "out") (collecting_words (codes "merge")) ≡ codes "archive" }
    ensures inputs { values_of (codes "input") (collecting_words (codes "merge"))
        ≡ codes "first" ∷ codes "second" ∷ [] }
{}
