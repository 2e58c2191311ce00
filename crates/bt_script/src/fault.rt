// The first fault of a script.
ghost use Rattle.std.specs.Prelude.{◌≡◌};
ghost use Rattle.bt_script.specs.Codes.{code_name};

use bt_text::LineFault;

/// What is wrong with a line of a script.
#[derive(Clone, Copy)]
pub enum ScriptCode {
    /// A line leaves the grammar.
    S1,
    /// No terminal has that name.
    S2,
    /// A number is out of range.
    S3,
    /// A line stands outside a round.
    S4,
    /// The script has too many lines.
    S5,
}

impl ScriptCode {
    /// The code, as it is printed.
    pub fn name(self) -> &'static str
        ensures name { result.now ≡ code_name self }
    {
        match self {
            ScriptCode::S1 => "S1",
            ScriptCode::S2 => "S2",
            ScriptCode::S3 => "S3",
            ScriptCode::S4 => "S4",
            ScriptCode::S5 => "S5",
        }
    }
}

/// Why a script was not read.
pub type ScriptFault = LineFault<ScriptCode>;
