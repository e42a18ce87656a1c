//! Why requests are refused.
ghost use Rattle.std.specs.Prelude.{◌≡◌};
ghost use Rattle.std.specs.Int.{IsInRange};
ghost use Rattle.view_text.specs.Refusals.{code_of, name_of_code, row_of_cause, refusal_status};
ghost use Rattle.view_text.specs.Statuses.{reason_of};

use crate::status::reason;

/// Why a request is refused. The number of each is its code in replies.
#[derive(Clone, Copy)]
pub enum Cause {
    /// A blank line ends what is no head of a request.
    BadHead = 1,
    /// No blank line ends within the room of a head.
    HeadTooLong = 2,
    /// The length of the body isn't one number.
    BadLength = 3,
    /// The body is longer than may be.
    BodyTooLong = 4,
    /// A field frames the body in a way that isn't offered.
    NotOffered = 5,
    /// The input ended within a request.
    CutShort = 6,
    /// No route has this path.
    NoRoute = 7,
    /// The path has a route with another method.
    WrongMethod = 8,
    /// The body is no JSON text.
    BadJson = 9,
    /// The body hasn't the keys and kinds of its route.
    BadShape = 10,
    /// No session of this name is live.
    NoSession = 11,
    /// As many callers live as may, and this one is new.
    TooManyCallers = 12,
    /// The number is neither the caller's last nor the next one.
    OutOfStep = 13,
    /// The number is the caller's last, and the body differs.
    SeqReused = 14,
    /// No control has this name.
    NoControl = 15,
    /// The control hasn't this event.
    NoEvent = 16,
    /// The control isn't shown.
    NotShown = 17,
    /// An item belongs here and is missing, or is given and doesn't.
    NoItem = 18,
    /// The row at the item's place has another id.
    ItemMoved = 19,
    /// The control doesn't take this value.
    BadInput = 20,
    /// No table has this name.
    NoTable = 21,
    /// No row has this id.
    NoRow = 22,
    /// A rule on rows breaks.
    RowRefused = 23,
    /// The edited app breaks rules.
    EditRefused = 24,
    /// A call of the keeper of rows failed.
    KeeperFault = 25,
    /// Memory ran out.
    WantOfMemory = 26,
    /// A move of tables breaks a rule.
    MoveRefused = 27,
    /// A record that is taken in breaks a rule.
    ImportRefused = 28,
}

impl Cause {
    /// The refusal of a code, 1 to 28.
    pub fn of(code: u8) -> Cause
        requires { IsInRange 1 28 code }
        ensures { code_of result ≡ code }
    {
        match code {
            1 => Cause::BadHead,
            2 => Cause::HeadTooLong,
            3 => Cause::BadLength,
            4 => Cause::BodyTooLong,
            5 => Cause::NotOffered,
            6 => Cause::CutShort,
            7 => Cause::NoRoute,
            8 => Cause::WrongMethod,
            9 => Cause::BadJson,
            10 => Cause::BadShape,
            11 => Cause::NoSession,
            12 => Cause::TooManyCallers,
            13 => Cause::OutOfStep,
            14 => Cause::SeqReused,
            15 => Cause::NoControl,
            16 => Cause::NoEvent,
            17 => Cause::NotShown,
            18 => Cause::NoItem,
            19 => Cause::ItemMoved,
            20 => Cause::BadInput,
            21 => Cause::NoTable,
            22 => Cause::NoRow,
            23 => Cause::RowRefused,
            24 => Cause::EditRefused,
            25 => Cause::KeeperFault,
            26 => Cause::WantOfMemory,
            27 => Cause::MoveRefused,
            _ => Cause::ImportRefused,
        }
    }

    /// The refusal's code, 1 to 28.
    pub fn code(self) -> u8
        ensures { result ≡ code_of self }
    {
        self.row().0
    }

    /// The refusal's name, as replies give it.
    pub fn name(self) -> &'static str
        ensures { result.now ≡ name_of_code (code_of self) }
    {
        self.row().1
    }

    /// The HTTP status of the refusal's reply.
    pub fn status(self) -> u16
        ensures { result ≡ refusal_status (code_of self) }
    {
        self.row().2
    }

    /// The reason that the status line of the refusal's reply gives.
    pub fn reason(self) -> &'static str
        ensures { result.now ≡ reason_of (refusal_status (code_of self)) }
    {
        reason(self.status())
    }

    /// The refusal's code, name and status.
    fn row(self) -> (u8, &'static str, u16)
        ensures code { result.0 ≡ (row_of_cause self).code }
        ensures name { result.1.now ≡ (row_of_cause self).name }
        ensures status { result.2 ≡ (row_of_cause self).status }
    {
        match self {
            Cause::BadHead => (1, "BadHead", 400),
            Cause::HeadTooLong => (2, "HeadTooLong", 431),
            Cause::BadLength => (3, "BadLength", 400),
            Cause::BodyTooLong => (4, "BodyTooLong", 413),
            Cause::NotOffered => (5, "NotOffered", 501),
            Cause::CutShort => (6, "CutShort", 400),
            Cause::NoRoute => (7, "NoRoute", 404),
            Cause::WrongMethod => (8, "WrongMethod", 405),
            Cause::BadJson => (9, "BadJson", 400),
            Cause::BadShape => (10, "BadShape", 400),
            Cause::NoSession => (11, "NoSession", 404),
            Cause::TooManyCallers => (12, "TooManyCallers", 429),
            Cause::OutOfStep => (13, "OutOfStep", 409),
            Cause::SeqReused => (14, "SeqReused", 409),
            Cause::NoControl => (15, "NoControl", 404),
            Cause::NoEvent => (16, "NoEvent", 409),
            Cause::NotShown => (17, "NotShown", 409),
            Cause::NoItem => (18, "NoItem", 409),
            Cause::ItemMoved => (19, "ItemMoved", 409),
            Cause::BadInput => (20, "BadInput", 422),
            Cause::NoTable => (21, "NoTable", 404),
            Cause::NoRow => (22, "NoRow", 404),
            Cause::RowRefused => (23, "RowRefused", 422),
            Cause::EditRefused => (24, "EditRefused", 422),
            Cause::KeeperFault => (25, "KeeperFault", 503),
            Cause::WantOfMemory => (26, "WantOfMemory", 507),
            Cause::MoveRefused => (27, "MoveRefused", 422),
            Cause::ImportRefused => (28, "ImportRefused", 422),
        }
    }
}
