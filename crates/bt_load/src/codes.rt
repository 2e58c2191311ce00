// The codes of the faults of texts, as they are printed.
ghost use Rattle.std.specs.Prelude.{◌≡◌, ℕ, List};
ghost use Rattle.bt_script.specs.Codes as script_code;
ghost use Rattle.bt_load.specs.Lines.{code_name, output_code_name, timing_code_name};

use bt_plan::TextCode;
use bt_run_lines::OutputCode;
use bt_script::ScriptCode;
use bt_timing::TimingCode;

/// What may be wrong with a line of a text, each with the code that is printed.
pub trait FaultCode {
    /// The code as it is printed.
    ghost name: { Self → List ℕ };

    /// The code as it is printed.
    fn text(self) -> &'static str
        ensures name { result.now ≡ name self };
}

impl FaultCode for TextCode {
    ghost name = { code_name };

    fn text(self) -> &'static str {
        match self {
            TextCode::X1 => "X1",
            TextCode::X2 => "X2",
            TextCode::M1 => "M1",
            TextCode::T1 => "T1",
            TextCode::T2 => "T2",
            TextCode::T3 => "T3",
            TextCode::T4 => "T4",
            TextCode::T5 => "T5",
            TextCode::P1 => "P1",
            TextCode::P2 => "P2",
            TextCode::P3 => "P3",
        }
    }
}

impl FaultCode for ScriptCode {
    ghost name = { script_code.code_name };

    fn text(self) -> &'static str {
        self.name()
    }
}

impl FaultCode for TimingCode {
    ghost name = { timing_code_name };

    fn text(self) -> &'static str {
        match self {
            TimingCode::G1 => "G1",
            TimingCode::G2 => "G2",
            TimingCode::G3 => "G3",
            TimingCode::G4 => "G4",
            TimingCode::G5 => "G5",
        }
    }
}

impl FaultCode for OutputCode {
    ghost name = { output_code_name };

    fn text(self) -> &'static str {
        match self {
            OutputCode::O1 => "O1",
        }
    }
}
