// A file of cases: which of its lines are cases, and which of these got another answer than stands below them.
ghost use Rattle.std.specs.Prelude.{◌≡◌, ◌≤◌, ◌⊎◌, ◌++◌, ◌∷◌, [], true, false, IfOk, OnOk};
ghost use Rattle.std.specs.String.{string_bytes};
ghost use Rattle.bt_outside.specs.Told.{Rose};

use crate::fault::{CaseFault, Result};
use crate::tally::Tally;
use std::alloc::Global;
use std::marker::Model;

/// A file of cases, line by line. It is known by the answer that the last line which acts must get, as far as it was
/// met: what stands below that line.
#[derive(Drop)]
pub struct Sheet {
    name: String,
    /// How many cases were played before.
    before: u64,
    /// The lines so far.
    met: u64,
    /// The last line that acts, and its number.
    line: String,
    number: u64,
    wanted: String,
}

impl Model for Sheet {
    ghost use Rattle.std.specs.Prelude.{ℕ, List};
    ghost use Rattle.std.specs.String.{string_bytes};

    ghost Value = { List ℕ };

    ghost view = { λ a. string_bytes a.wanted };
}

impl Sheet {
    /// The file of that name, of which no line was met, after the cases of the tally.
    pub fn new(alloc: Global, name: &str, tally: &Tally) -> Result<Sheet>
        ensures none { IfOk result (λ sheet. sheet ≡ []) }
    {
        Ok(Sheet {
            name: String::from_str(alloc, name)?,
            before: tally.cases(),
            met: 0,
            line: String::new(alloc),
            number: 0,
            wanted: String::new(alloc),
        })
    }

    /// Meets a line, and says whether it acts. If so, the one before it is counted where it is a case, by the answer
    /// that came, which is cleared; else the line is a part of the answer that must come.
    pub fn meets(
        &mut self,
        alloc: Global,
        line: &str,
        came: &mut String,
        tally: &mut Tally,
    ) -> Result<bool>
        ensures judged { IfOk result (λ acts. acts ≡ true → (string_bytes came.old ≡ self.old) ⊎ Rose tally.old.others tally.new.others) }
        ensures later { tally.old.others ≤ tally.new.others }
        ensures wanted { IfOk result (λ acts. acts ≡ false → self.new ≡ self.old ++ (line.now ++ 10 ∷ [])) }
        ensures cleared { IfOk result (λ acts. acts ≡ true → (string_bytes came.new ≡ []) × (self.new ≡ [])) }
        ensures kept { IfOk result (λ acts. acts ≡ false → string_bytes came.new ≡ string_bytes came.old) }
    {
        self.met = self.met.saturating_add(1);
        if line.starts_with('>') || line.starts_with('=') {
            self.want(line)?;
            return Ok(false);
        }
        self.judge(alloc, came, tally)?;
        self.act(line)?;
        Ok(true)
    }

    /// Counts the last line that acts, where it is a case, by the answer that came. Fails where no line was a case.
    pub fn end(&mut self, alloc: Global, came: &mut String, tally: &mut Tally) -> Result<()>
        ensures judged { OnOk result ((string_bytes came.old ≡ self.old) ⊎ Rose tally.old.others tally.new.others) }
        ensures later { tally.old.others ≤ tally.new.others }
    {
        self.judge(alloc, came, tally)?;
        if tally.cases() <= self.before {
            return Err(CaseFault("no case"));
        }
        Ok(())
    }

    /// The last line that acts.
    pub fn line(&self) -> &str {
        self.line.as_str()
    }

    /// The line acts.
    fn act(&mut self, line: &str) -> Result<()>
        ensures same { self.new ≡ self.old }
    {
        self.line.clear();
        self.line.push_str(line)?;
        self.number = self.met;
        Ok(())
    }

    /// A line more of the answer that must come.
    fn want(&mut self, line: &str) -> Result<()>
        ensures wanted { OnOk result (self.new ≡ self.old ++ (line.now ++ 10 ∷ [])) }
    {
        self.wanted.push_str(line)?;
        self.wanted.push('\n')?;
        Ok(())
    }

    /// Counts the line where it is a case. It is done with then.
    fn judge(&mut self, alloc: Global, came: &mut String, tally: &mut Tally) -> Result<()>
        ensures judged { (string_bytes came.old ≡ self.old) ⊎ Rose tally.old.others tally.new.others }
        ensures later { tally.old.others ≤ tally.new.others }
        ensures cleared { OnOk result ((string_bytes came.new ≡ []) × (self.new ≡ [])) }
    {
        count(came, &self.wanted, tally);
        self.tell(alloc, came, tally)?;
        came.clear();
        self.wanted.clear();
        Ok(())
    }

    /// Tells of the line where it got another answer.
    fn tell(&self, alloc: Global, came: &str, tally: &mut Tally) -> Result<()>
        ensures same { tally.new ≡ tally.old }
    {
        if came.as_bytes() == self.wanted.as_bytes() {
            return Ok(());
        }
        let (name, number, line) = (self.name.as_str(), self.number, self.line.as_str());
        tally.tell(&format!(in alloc; "{name}:{number}\n{line}\n{came}")?)
    }
}

/// Counts a line that got this answer, where it is a case.
fn count(came: &String, wanted: &String, tally: &mut Tally)
    ensures judged { (string_bytes came.now ≡ string_bytes wanted.now) ⊎ Rose tally.old.others tally.new.others }
    ensures later { tally.old.others ≤ tally.new.others }
{
    if came.as_bytes() != wanted.as_bytes() {
        tally.count_other();
    } else if !came.is_empty() {
        tally.count();
    }
}
