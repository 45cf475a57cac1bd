/// A command of the program.
#[derive(Clone, Copy, Debug, Drop, PartialEq, Eq)]
pub enum Command {
    /// Writes the listings of a file's messages.
    Show,
    /// Writes a line for each frame of a file.
    Check,
    /// Writes the messages of a listing.
    Encode,
    /// Makes an archive of the reports of streams.
    Add,
    /// Makes an archive of the reports of archives.
    Merge,
}

/// A command line: a command and what it works on.
#[derive(Debug, Drop)]
pub struct Line<'a> {
    /// The command.
    pub command: Command,
    /// The path of the file of Table B.
    pub b: &'a str,
    /// The path of the file of Table D.
    pub d: &'a str,
    /// Whether `encode` compresses every message.
    pub compressed: bool,
    /// The path of the archive that the command writes; empty if it writes none.
    pub out: &'a str,
    /// The paths of the inputs, in order.
    pub inputs: Vec<&'a str>,
}
