//! The form of each kind of message: who sends it to whom, and which fields it fills.

ghost use Rattle.std.specs.Prelude.{◌≡◌, ◌≤◌, true};
ghost use Rattle.message.specs.Checks.{rest_is_zero, all_are_zero, words_fit, numbers_fit};
ghost use Rattle.message.specs.Forms.{form, returned, row, form_of};

use crate::kind::Kind;
use ordering::clock::END;
use ordering::operation::Words;

/// One end of a message. The last three tie the message's place to the end.
#[derive(Clone, Copy, Debug, PartialEq, Eq)]
pub enum End {
    /// A processor of this board.
    Processor,
    /// A device.
    Device,
    /// A processor or a device.
    Requester,
    /// The home of the block at the place.
    Home,
    /// The device that has a word at the place.
    Owner,
    /// The processor at the place.
    Target,
}

/// Which words are filled.
#[derive(Clone, Copy, Debug, PartialEq, Eq)]
pub enum Fill {
    Zero,
    One,
    Four,
    /// All four under the exclusive mark, and else none.
    Marked,
}

/// Which numbers are filled.
#[derive(Clone, Copy, Debug, PartialEq, Eq)]
pub enum Numbers {
    Zero,
    Clock,
    ClockAndSequence,
}

/// What a message of one kind has at its ends and in its fields.
#[derive(Clone, Copy, Debug, PartialEq, Eq)]
pub struct Form {
    pub sender: End,
    pub receiver: End,
    pub words: Fill,
    pub numbers: Numbers,
}

fn rest_is_zero(words: Words) -> bool
    ensures { result ≡ rest_is_zero words }
{
    matches!(words.at, [_, 0, 0, 0])
}

fn all_are_zero(words: Words) -> bool
    ensures { result ≡ all_are_zero words }
{
    words == Words::ZERO
}

impl Fill {
    // Only what may be marked has a mark.
    pub(crate) fn allows(self, mark: bool, words: Words) -> bool
        ensures { result ≡ words_fit self mark words }
    {
        match self {
            Fill::Zero => !mark && all_are_zero(words),
            Fill::One => !mark && rest_is_zero(words),
            Fill::Four => !mark,
            Fill::Marked => mark || all_are_zero(words),
        }
    }
}

impl Numbers {
    pub(crate) fn allow(self, clock: u64, sequence: u32) -> bool
        ensures value { result ≡ numbers_fit self clock sequence }
        ensures clock { result ≡ true → clock ≤ 1000000000 }
        ensures sequence { result ≡ true → sequence ≤ 1000000000 }
    {
        let end = u64::from(END);
        match self {
            Numbers::Zero => clock == 0 && sequence == 0,
            Numbers::Clock => clock <= end && sequence == 0,
            Numbers::ClockAndSequence => clock <= end && sequence <= END,
        }
    }
}

impl Form {
    fn new(sender: End, receiver: End, words: Fill, numbers: Numbers) -> Form
        ensures { result ≡ form sender receiver words numbers }
    {
        Form {
            sender,
            receiver,
            words,
            numbers,
        }
    }

    // A home gives a request back as it came.
    fn returned(self) -> Form
        ensures { result ≡ returned self }
    {
        Form::new(End::Home, self.sender, self.words, self.numbers)
    }
}

impl Kind {
    // NACK's row is the widest: the refused kind says more.
    #[rattlefmt::skip]
    fn row(self) -> Form
        ensures { result ≡ row self }
    {
        match self {
            Kind::Gets => Form::new(End::Processor, End::Home, Fill::Zero, Numbers::Zero),
            Kind::Getx => Form::new(End::Processor, End::Home, Fill::Zero, Numbers::Zero),
            Kind::Upg => Form::new(End::Processor, End::Home, Fill::Zero, Numbers::Zero),
            Kind::Wb => Form::new(End::Processor, End::Home, Fill::Zero, Numbers::Zero),
            Kind::Rblk => Form::new(End::Device, End::Home, Fill::Zero, Numbers::ClockAndSequence),
            Kind::Wblk => Form::new(End::Device, End::Home, Fill::Four, Numbers::ClockAndSequence),
            Kind::Rio => Form::new(End::Processor, End::Owner, Fill::Zero, Numbers::ClockAndSequence),
            Kind::Wio => Form::new(End::Processor, End::Owner, Fill::One, Numbers::ClockAndSequence),
            Kind::Int => Form::new(End::Device, End::Target, Fill::One, Numbers::ClockAndSequence),
            Kind::Inv => Form::new(End::Home, End::Processor, Fill::Zero, Numbers::Zero),
            Kind::Down => Form::new(End::Home, End::Processor, Fill::Zero, Numbers::Zero),
            Kind::Ack => Form::new(End::Processor, End::Home, Fill::Marked, Numbers::Clock),
            Kind::SData => Form::new(End::Home, End::Processor, Fill::Four, Numbers::Clock),
            Kind::XData => Form::new(End::Home, End::Processor, Fill::Four, Numbers::Clock),
            Kind::Grant => Form::new(End::Home, End::Processor, Fill::Zero, Numbers::Clock),
            Kind::Done => Form::new(End::Home, End::Requester, Fill::Zero, Numbers::Clock),
            Kind::Words => Form::new(End::Home, End::Device, Fill::Four, Numbers::Clock),
            Kind::Value => Form::new(End::Owner, End::Processor, Fill::One, Numbers::Clock),
            Kind::Nack => Form::new(End::Home, End::Requester, Fill::Four, Numbers::ClockAndSequence),
            Kind::Taken => Form::new(End::Requester, End::Home, Fill::Zero, Numbers::Zero),
        }
    }

    /// The form of a message of this kind that refuses `refused`. Only a NACK refuses, and only a request.
    pub fn form(self, refused: Option<Kind>) -> Option<Form>
        ensures { result ≡ form_of self refused }
    {
        match (self, refused) {
            (Kind::Nack, Some(request)) => request.is_request().then(|| request.row().returned()),
            (Kind::Nack, None) | (_, Some(_)) => None,
            (_, None) => Some(self.row()),
        }
    }
}
