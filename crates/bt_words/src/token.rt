// What stands at each place of a form.
ghost use Rattle.std.specs.Prelude.{◌≡◌, ◌≤◌, map};
ghost use Rattle.bt_words.specs.Forms.{part_of, parts_of, open_places, forms_from};
ghost use Rattle.bt_words.specs.declared.token.TheConstants.{MOST_VALUES};

use crate::form::Form;
use bt_text::is_word;

/// The most words of a line that are not fixed.
pub const MOST_VALUES: usize = 7;

/// What may stand at a place of a printed line.
#[derive(Clone, Copy)]
pub enum Token {
    /// A number of a u32.
    Number,
    /// A number of at most 19 digits.
    Count,
    /// The number of a desk.
    Desk,
    /// A superframe and the number of a frame of it, with a point between them.
    Frame,
    /// The name of a beam.
    Beam,
    /// The name of a terminal.
    Terminal,
    /// What the satellite does with a message that is for it.
    Taken,
    /// What a terminal does with a message that is for it.
    Heard,
    /// The tag of those who speak in a session: an `@` and their word.
    Tag,
    /// The moment that a clock told.
    Moment,
    /// This word alone.
    Text(&'static str),
}

/// The places of a form, in order.
#[rattlefmt::skip]
pub fn tokens_of(form: Form) -> &'static [Token]
    ensures parts { map part_of result.now ≡ parts_of form }
    ensures few { open_places (parts_of form) ≤ MOST_VALUES }
{
    use Token::*;
    match form {
        Form::SentLoad          => &[Text("sent"), Number, Text("load"), Number, Number],
        Form::SentArm           => &[Text("sent"), Number, Text("arm"), Number, Number, Number],
        Form::SentStatus        => &[Text("sent"), Number, Text("status"), Text("mark"), Number, Text("fore"), Number, Text("back"), Number, Text("armed"), Text("none"), Text("last"), Number],
        Form::SentArmedStatus   => &[Text("sent"), Number, Text("status"), Text("mark"), Number, Text("fore"), Number, Text("back"), Number, Text("armed"), Number, Text("due"), Number, Text("last"), Number],
        Form::SentPlan          => &[Text("sent"), Number, Text("plan"), Number, Terminal],
        Form::SentConfirm       => &[Text("sent"), Number, Text("confirm"), Number, Terminal],
        Form::SentReference     => &[Text("sent"), Number, Text("reference"), Number, Number],
        Form::SentNoReference   => &[Text("sent"), Number, Text("reference"), Number, Text("none")],
        Form::SentLost          => &[Text("sent"), Number, Text("lost"), Terminal],
        Form::GotSatellite      => &[Text("got"), Number, Text("sat"), Taken],
        Form::GotCentre         => &[Text("got"), Number, Text("centre"), Text("noted")],
        Form::GotTerminal       => &[Text("got"), Number, Terminal, Heard],
        Form::NotForSatellite   => &[Text("got"), Number, Text("sat"), Text("notforme")],
        Form::NotForCentre      => &[Text("got"), Number, Text("centre"), Text("notforme")],
        Form::NotForTerminal    => &[Text("got"), Number, Terminal, Text("notforme")],
        Form::Air               => &[Text("air"), Number, Number, Terminal, Terminal],
        Form::Frame             => &[Text("frame"), Frame, Text("fore"), Number],
        Form::Over              => &[Text("frame"), Number, Text("over")],
        Form::Tick              => &[Text("tick"), Number],
        Form::LastTick          => &[Text("tick"), Text("last")],
        Form::Turn              => &[Text("turn"), Number, Text("newest"), Number],
        Form::BackTurn          => &[Text("turn"), Number, Text("back"), Number],
        Form::TurnWithoutMark   => &[Text("turn"), Text("nomark")],
        Form::Back              => &[Text("back"), Number],
        Form::NotInstalled      => &[Text("back"), Number, Text("not"), Text("installed")],
        Form::Ahead             => &[Text("ahead")],
        Form::Flow              => &[Text("flow")],
        Form::Lost              => &[Text("lost"), Count],
        Form::NotSent           => &[Text("deliver"), Number, Text("not"), Text("sent")],
        Form::Start             => &[Text("start"), Text("edition"), Number, Text("plan"), Number, Text("mark"), Number],
        Form::Restart           => &[Text("restart")],
        Form::Round             => &[Text("round"), Count],
        Form::Total             => &[Text("total"), Text("done"), Count, Text("refused"), Count, Text("store"), Count],
        Form::DeskDone          => &[Text("desk"), Desk, Text("done"), Number, Number],
        Form::DeskSameTerminal  => &[Text("desk"), Desk, Text("refused"), Text("E1")],
        Form::DeskNotThere      => &[Text("desk"), Desk, Text("refused"), Text("E2"), Number],
        Form::DeskRowFull       => &[Text("desk"), Desk, Text("refused"), Text("E3"), Beam, Number],
        Form::DeskColumnFull    => &[Text("desk"), Desk, Text("refused"), Text("E4"), Beam, Number],
        Form::DeskBookFull      => &[Text("desk"), Desk, Text("refused"), Text("E5"), Number],
        Form::DeskStoreFault    => &[Text("desk"), Desk, Text("store"), Text("fault")],
        Form::DeskStopped       => &[Text("desk"), Desk, Text("stopped")],
        Form::Shows             => &[Text("desk"), Desk, Text("shows"), Number, Text("length"), Number, Text("modes"), Number],
        Form::Burst             => &[Text("burst"), Number, Number, Terminal, Terminal],
        Form::Planned           => &[Text("plan"), Number, Text("length"), Number, Text("modes"), Number, Text("bursts"), Number],
        Form::NothingNew        => &[Text("plan"), Text("nothing"), Text("new")],
        Form::PlanBookFull      => &[Text("plan"), Text("refused"), Text("E5"), Number],
        Form::PlanStoreFault    => &[Text("plan"), Text("store"), Text("fault")],
        Form::PlanStopped       => &[Text("plan"), Text("stopped")],
        Form::OrderLoad         => &[Text("order"), Text("load"), Number, Number],
        Form::OrderArm          => &[Text("order"), Text("arm"), Number, Number, Number],
        Form::OrderBookFull     => &[Text("order"), Text("refused"), Text("E5"), Number],
        Form::OrderOutOfTurn    => &[Text("order"), Text("refused"), Text("E9"), Number],
        Form::OrderNotInstalled => &[Text("order"), Text("refused"), Text("E10"), Number],
        Form::OrderStoreFault   => &[Text("order"), Text("store"), Text("fault")],
        Form::OrderStopped      => &[Text("order"), Text("stopped")],
        Form::Reset             => &[Text("reset"), Terminal],
        Form::StandbyNoted      => &[Text("standby"), Text("hears"), Number, Text("noted")],
        Form::StandbyWrongMark  => &[Text("standby"), Text("hears"), Number, Text("wrongmark")],
        Form::StandbyNotForMe   => &[Text("standby"), Text("hears"), Number, Text("notforme")],
        Form::StandbyNotSent    => &[Text("standby"), Text("hears"), Number, Text("not"), Text("sent")],
        Form::StandbyBurst      => &[Text("standby"), Text("burst")],
        Form::StoreFault        => &[Text("fault"), Text("store")],
        Form::Ready             => &[Text("ready"), Count],
        Form::ReadyOpen         => &[Text("ready"), Count, Text("open"), Count],
        Form::ReadyTag          => &[Text("ready"), Count, Tag],
        Form::ReadyOpenTag      => &[Text("ready"), Count, Text("open"), Count, Tag],
        Form::ReadyAt           => &[Text("ready"), Count, Text("at"), Moment],
        Form::ReadyOpenAt       => &[Text("ready"), Count, Text("open"), Count, Text("at"), Moment],
        Form::ReadyAtTag        => &[Text("ready"), Count, Text("at"), Moment, Tag],
        Form::ReadyOpenAtTag    => &[Text("ready"), Count, Text("open"), Count, Text("at"), Moment, Tag],
        Form::BlockOpen         => &[Text("block"), Count, Text("lines"), Count],
        Form::BlockOpenTag      => &[Text("block"), Count, Text("lines"), Count, Tag],
        Form::BlockRefused      => &[Text("block"), Text("refused"), Count],
        Form::Stopped           => &[Text("stopped")],
        Form::Lines             => &[Text("lines"), Count],
        Form::Superframe        => &[Text("superframe"), Number],
        Form::NoSuperframe      => &[Text("superframe"), Text("none")],
        Form::Status            => &[Text("status"), Text("mark"), Number, Text("age"), Number, Text("fore"), Number, Text("back"), Number, Text("armed"), Text("none"), Text("last"), Number],
        Form::ArmedStatus       => &[Text("status"), Text("mark"), Number, Text("age"), Number, Text("fore"), Number, Text("back"), Number, Text("armed"), Number, Text("due"), Number, Text("last"), Number],
        Form::NoStatus          => &[Text("status"), Text("none")],
        Form::LastLoad          => &[Text("last"), Text("load"), Number, Number, Text("unconfirmed")],
        Form::LastLoadConfirmed => &[Text("last"), Text("load"), Number, Number, Text("confirmed")],
        Form::LastArm           => &[Text("last"), Text("arm"), Number, Number, Number, Text("unconfirmed")],
        Form::LastArmConfirmed  => &[Text("last"), Text("arm"), Number, Number, Number, Text("confirmed")],
        Form::NoLast            => &[Text("last"), Text("none")],
        Form::Missing           => &[Text("missing"), Terminal],
        Form::Asks              => &[Text("asks"), Terminal],
        Form::LineFaultS1       => &[Text("fault"), Text("S1"), Count],
        Form::LineFaultS2       => &[Text("fault"), Text("S2"), Count],
        Form::LineFaultS3       => &[Text("fault"), Text("S3"), Count],
        Form::LineFaultS4       => &[Text("fault"), Text("S4"), Count],
        Form::LineFaultS5       => &[Text("fault"), Text("S5"), Count],
        Form::InputFault        => &[Text("fault"), Text("input")],
        Form::PlanDone          => &[Text("plan"), Text("done"), Number, Number],
        Form::PlanSameTerminal  => &[Text("plan"), Text("refused"), Text("E1")],
        Form::PlanNotThere      => &[Text("plan"), Text("refused"), Text("E2"), Number],
        Form::PlanRowFull       => &[Text("plan"), Text("refused"), Text("E3"), Beam, Number],
        Form::PlanColumnFull    => &[Text("plan"), Text("refused"), Text("E4"), Beam, Number],
        Form::PlanNotNewer      => &[Text("plan"), Text("refused"), Text("E6"), Number],
        Form::PlanNoSuchEdition => &[Text("plan"), Text("refused"), Text("E7"), Number],
        Form::PlanNotGood       => &[Text("plan"), Text("refused"), Text("E8")],
    }
}

/// The forms of a run whose first word is this one.
pub fn forms_from(head: &[u8]) -> &'static [Form]
    ensures forms { result.now ≡ forms_from head.now }
{
    if is_word(head, b"sent") {
        &[
            Form::SentLoad,
            Form::SentArm,
            Form::SentStatus,
            Form::SentArmedStatus,
            Form::SentPlan,
            Form::SentConfirm,
            Form::SentReference,
            Form::SentNoReference,
            Form::SentLost,
        ]
    } else if is_word(head, b"got") {
        &[
            Form::GotSatellite,
            Form::GotCentre,
            Form::GotTerminal,
            Form::NotForSatellite,
            Form::NotForCentre,
            Form::NotForTerminal,
        ]
    } else if is_word(head, b"air") {
        &[Form::Air]
    } else if is_word(head, b"frame") {
        &[Form::Frame, Form::Over]
    } else if is_word(head, b"tick") {
        &[Form::Tick, Form::LastTick]
    } else if is_word(head, b"turn") {
        &[Form::Turn, Form::BackTurn, Form::TurnWithoutMark]
    } else if is_word(head, b"back") {
        &[Form::Back, Form::NotInstalled]
    } else if is_word(head, b"ahead") {
        &[Form::Ahead]
    } else if is_word(head, b"flow") {
        &[Form::Flow]
    } else if is_word(head, b"lost") {
        &[Form::Lost]
    } else if is_word(head, b"deliver") {
        &[Form::NotSent]
    } else if is_word(head, b"start") {
        &[Form::Start]
    } else if is_word(head, b"restart") {
        &[Form::Restart]
    } else if is_word(head, b"round") {
        &[Form::Round]
    } else if is_word(head, b"total") {
        &[Form::Total]
    } else if is_word(head, b"desk") {
        &[
            Form::DeskDone,
            Form::DeskSameTerminal,
            Form::DeskNotThere,
            Form::DeskRowFull,
            Form::DeskColumnFull,
            Form::DeskBookFull,
            Form::DeskStoreFault,
            Form::DeskStopped,
            Form::Shows,
        ]
    } else if is_word(head, b"burst") {
        &[Form::Burst]
    } else if is_word(head, b"plan") {
        &[
            Form::Planned,
            Form::NothingNew,
            Form::PlanBookFull,
            Form::PlanStoreFault,
            Form::PlanStopped,
        ]
    } else if is_word(head, b"order") {
        &[
            Form::OrderLoad,
            Form::OrderArm,
            Form::OrderBookFull,
            Form::OrderOutOfTurn,
            Form::OrderNotInstalled,
            Form::OrderStoreFault,
            Form::OrderStopped,
        ]
    } else if is_word(head, b"reset") {
        &[Form::Reset]
    } else if is_word(head, b"standby") {
        &[
            Form::StandbyNoted,
            Form::StandbyWrongMark,
            Form::StandbyNotForMe,
            Form::StandbyNotSent,
            Form::StandbyBurst,
        ]
    } else if is_word(head, b"fault") {
        &[
            Form::StoreFault,
            Form::LineFaultS1,
            Form::LineFaultS2,
            Form::LineFaultS3,
            Form::LineFaultS4,
            Form::LineFaultS5,
            Form::InputFault,
        ]
    } else if is_word(head, b"ready") {
        &[
            Form::Ready,
            Form::ReadyOpen,
            Form::ReadyTag,
            Form::ReadyOpenTag,
            Form::ReadyAt,
            Form::ReadyOpenAt,
            Form::ReadyAtTag,
            Form::ReadyOpenAtTag,
        ]
    } else if is_word(head, b"block") {
        &[Form::BlockOpen, Form::BlockOpenTag, Form::BlockRefused]
    } else if is_word(head, b"stopped") {
        &[Form::Stopped]
    } else if is_word(head, b"lines") {
        &[Form::Lines]
    } else if is_word(head, b"superframe") {
        &[Form::Superframe, Form::NoSuperframe]
    } else if is_word(head, b"status") {
        &[Form::Status, Form::ArmedStatus, Form::NoStatus]
    } else if is_word(head, b"last") {
        &[
            Form::LastLoad,
            Form::LastLoadConfirmed,
            Form::LastArm,
            Form::LastArmConfirmed,
            Form::NoLast,
        ]
    } else if is_word(head, b"missing") {
        &[Form::Missing]
    } else if is_word(head, b"asks") {
        &[Form::Asks]
    } else {
        &[]
    }
}
