// What two occurrences of one subformula have in common: the operator and the numbers of its operands. The
// number of an entry's own request is no part of it, since it is known only once the entry is there.
ghost use Rattle.std.specs.Prelude.{◌≡◌, ◌+◌, ◌<◌};
ghost use Rattle.ltl_closure.specs.Keys.{request_of, asking_entry, joined_entry, entry_of};

use crate::Entry;

/// The operators of requests.
#[derive(Clone, Copy, Debug, PartialEq, Eq, Hash)]
pub enum Request {
    Next,
    WeakNext,
    Yesterday,
    WeakYesterday,
}

/// The operators of two operands that are left in the normal form.
#[derive(Clone, Copy, Debug, PartialEq, Eq, Hash)]
pub enum Connective {
    And,
    Or,
    Until,
    Release,
    Since,
    Trigger,
}

#[derive(Clone, Copy, Debug, PartialEq, Eq, Hash)]
pub enum Key {
    Const(bool),
    Letter(u32),
    Fresh(u32),
    NotLetter(u32),
    Asks(Request, u32),
    Joins(Connective, u32, u32),
}

impl Key {
    /// The operator of the request that comes right after the entry.
    pub fn request(self) -> Option<Request>
        ensures { result ≡ request_of self }
    {
        match self {
            Key::Joins(Connective::Until, _, _) => Some(Request::Next),
            Key::Joins(Connective::Release, _, _) => Some(Request::WeakNext),
            Key::Joins(Connective::Since, _, _) => Some(Request::Yesterday),
            Key::Joins(Connective::Trigger, _, _) => Some(Request::WeakYesterday),
            _ => None,
        }
    }

    /// The entry with this number.
    pub fn entry(self, number: u32) -> Entry
        requires { number < 4294967295 }
        ensures { result ≡ entry_of self number }
    {
        let request = number + 1;
        match self {
            Key::Const(true) => Entry::True,
            Key::Const(false) => Entry::False,
            Key::Letter(letter) => Entry::Letter(letter),
            Key::Fresh(letter) => Entry::Fresh(letter),
            Key::NotLetter(argument) => Entry::NotLetter(argument),
            Key::Asks(asks, argument) => asks.entry(argument),
            Key::Joins(joins, left, right) => joins.entry(left, right, request),
        }
    }
}

impl Request {
    fn entry(self, argument: u32) -> Entry
        ensures { result ≡ asking_entry self argument }
    {
        match self {
            Request::Next => Entry::Next {
                argument,
                weak: false,
            },
            Request::WeakNext => Entry::Next {
                argument,
                weak: true,
            },
            Request::Yesterday => Entry::Yesterday {
                argument,
                weak: false,
            },
            Request::WeakYesterday => Entry::Yesterday {
                argument,
                weak: true,
            },
        }
    }
}

impl Connective {
    fn entry(self, left: u32, right: u32, request: u32) -> Entry
        ensures { result ≡ joined_entry self left right request }
    {
        match self {
            Connective::And => Entry::And(left, right),
            Connective::Or => Entry::Or(left, right),
            Connective::Until => Entry::Until {
                left,
                right,
                request,
            },
            Connective::Release => Entry::Release {
                left,
                right,
                request,
            },
            Connective::Since => Entry::Since {
                left,
                right,
                request,
            },
            Connective::Trigger => Entry::Trigger {
                left,
                right,
                request,
            },
        }
    }
}
