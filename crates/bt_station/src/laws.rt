// What a station hears and says are acts of sites that hear lines with stamps, of which the laws of `bt_sites` speak.
ghost use Rattle.std.specs.Prelude.{◌≡◌, ℕ, ◌<◌, ◌++◌, [], ◌∷◌, List, Some};
ghost use Rattle.bt_frame.specs.declared.limits.TheConstants.{LAST_MARK};
ghost use Rattle.bt_frame.specs.declared.numbers.TermNo.{TermNo};
ghost use Rattle.bt_net.specs.Network.{Net};
ghost use Rattle.bt_text.specs.Text.{spaced};
ghost use Rattle.bt_site.specs.Event.{Opening};
ghost use Rattle.bt_site.specs.World.{greatest_due};
ghost use Rattle.bt_sites.specs.Late.{now_of};
ghost use Rattle.bt_sites.specs.Stamps.{Act, Begins, Begun, Hears, Line, Radio, Seconds, StandbyStarts, Starts, known, lines_by, steps_by};
ghost use Rattle.bt_sites.specs.Step as site;
ghost use Rattle.bt_station.specs.declared.asked.Asked.TheVariants as asked;
ghost use Rattle.bt_station.specs.declared.station.Station.TheVariants as station;
ghost use Rattle.bt_station.specs.Acts.{IsAct, IsHeardAs, IsPassedOver, IsSayable, IsTakenUp, ShowsSent, present_after, satellite_at, satellite_log, second_logs, standby_at, standby_log, terminal_at, terminal_log, text_of, texts_of, words_of};
ghost use Rattle.bt_station.specs.Asked.{asked_of};
ghost use Rattle.bt_station.specs.Satellite.{satellite_in};
ghost use Rattle.bt_station.specs.Station.{after, answer};
ghost use Rattle.bt_station.specs.Standby.{standby_new};
ghost use Rattle.bt_station.specs.Terminal.{start_lines, terminal_of};

/// Each line that can be said, its newline left out, is heard as it was said.
pub fn lines_are_heard_as_said()
    ensures said { (line : Line) → text_of line ≡ spaced (words_of line) ++ 10 ∷ [] }
    ensures heard { (net : Net) (line : Line) → IsSayable line → IsHeardAs net (spaced (words_of line)) line }
{}

/// The satellite that starts in the superframe of an opening is what it is before any act. Its `tick` is the act by which a
/// superframe begins, and each line of another site is the act of hearing it.
pub fn satellite_is_a_site()
    ensures start { (o : Opening) → station.Satellite (satellite_in (record { 0 = greatest_due o.orders })) ≡ satellite_at o 0 [] }
    ensures tick { (net : Net) (at : ℕ) (o : Opening) (shown : ℕ) (before : List Act) (text : List ℕ) → asked_of net text ≡ Some asked.Tick
        → now_of o (steps_by o before) < LAST_MARK
        → IsAct net at (satellite_at o shown before) text (satellite_at o 0 (Begins ∷ before)) [] (lines_by o before Begins) }
    ensures heard { (net : Net) (at : ℕ) (o : Opening) (shown : ℕ) (before : List Act) (line : Line) (text : List ℕ) → IsHeardAs net text line
        → IsAct net at (satellite_at o shown before) text (satellite_at o shown (Hears site.Satellite line ∷ before)) (satellite_log net at o before line) (lines_by o before (Hears site.Satellite line)) }
{}

/// A terminal that starts is what it is after its start, whatever was before it. Each line of another site that it takes up
/// is the act of hearing it; a message is passed over by one that knows no superframe. A line of its modem in a superframe
/// is as if it had heard that this one begins; what it is to transmit then is what it transmits in that superframe by those
/// laws, or nothing.
pub fn terminals_are_sites()
    ensures start { (o : Opening) (number : TermNo) (before : List Act) → (station.Terminal (terminal_of number) ≡ terminal_at o number (Starts number ∷ before))
        × (start_lines number ≡ texts_of (lines_by o before (Starts number))) }
    ensures heard { (net : Net) (at : ℕ) (o : Opening) (number : TermNo) (before : List Act) (line : Line) (text : List ℕ) → IsHeardAs net text line
        → IsTakenUp (known (site.Terminal number) before) line
        → IsAct net at (terminal_at o number before) text (terminal_at o number (Hears (site.Terminal number) line ∷ before)) (terminal_log net at number o before line) (lines_by o before (Hears (site.Terminal number) line)) }
    ensures passed_over { (net : Net) (at : ℕ) (o : Opening) (number : TermNo) (before : List Act) (stamp : ℕ) (bytes text : List ℕ) → IsHeardAs net text (Radio stamp bytes)
        → known (site.Terminal number) before ≡ 0 → IsPassedOver net at (terminal_at o number before) text }
    ensures modem { (net : Net) (o : Opening) (number : TermNo) (before : List Act) (mark frame : ℕ) (text : List ℕ)
        → asked_of net text ≡ Some (asked.FrameOf (record { 0 = mark }) frame) → 0 < mark
        → after net (terminal_at o number before) (Some text) ≡ terminal_at o number (Hears (site.Terminal number) (Begun mark) ∷ before) }
    ensures sent { (net : Net) (at : ℕ) (o : Opening) (number : TermNo) (before : List Act) (mark frame : ℕ) (text : List ℕ)
        → asked_of net text ≡ Some (asked.FrameOf (record { 0 = mark }) frame) → 0 < mark
        → ShowsSent net o (Hears (site.Terminal number) (Begun mark) ∷ before) number mark frame (answer net at (terminal_at o number before) (Some text)) }
{}

/// The standby that starts is what it is after its start, whatever was before it. Each line of another site that it takes up
/// is the act of hearing it; a message is passed over by one that knows no superframe. Its `second` is the act by which the
/// second reference burst is said.
pub fn standby_is_a_site()
    ensures start { (o : Opening) (before : List Act) → station.Standby standby_new ≡ standby_at o (StandbyStarts ∷ before) }
    ensures heard { (net : Net) (at : ℕ) (o : Opening) (before : List Act) (line : Line) (text : List ℕ) → IsHeardAs net text line
        → IsTakenUp (known site.Standby before) line
        → IsAct net at (standby_at o before) text (standby_at o (Hears site.Standby line ∷ before)) (standby_log at o before line) (lines_by o before (Hears site.Standby line)) }
    ensures passed_over { (net : Net) (at : ℕ) (o : Opening) (before : List Act) (stamp : ℕ) (bytes text : List ℕ) → IsHeardAs net text (Radio stamp bytes)
        → known site.Standby before ≡ 0 → IsPassedOver net at (standby_at o before) text }
    ensures second { (net : Net) (at : ℕ) (o : Opening) (before : List Act) (text : List ℕ) → asked_of net text ≡ Some asked.Second
        → IsAct net at (standby_at o before) text (standby_at o (Seconds ∷ before)) (second_logs (present_after site.Standby before)) (lines_by o before Seconds) }
{}
