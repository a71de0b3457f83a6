// What Rust and C link: the library's calls over numbers and slices, with answers that are plain structs.
//
// A call of this crate is a call of a crate below it, whose answer it turns into numbers: `refusal` is 0
// where the call is accepted, else the refusal's number, and then every other field is 0. Only a cached
// place is handed back as it came. C has no Result and no generic function: so each answer is a struct of
// numbers, yes and no are 1 and 0, and each width is an export of its own.
#![tactic(auto)]

mod calls;
mod looking;
mod on_stream;
mod reading;
mod state;
mod writing;

ghost use Rattle.std.specs.Prelude.{◌≡◌};
ghost use Rattle.loughcable.specs.Answers.{answered, asked, informed, situated, prototyped, tallied};
ghost use Rattle.loughcable.specs.Claims.{Claimed};

use header::PayloadInfo;
use list::Prototype;
use rlp::Refusal;
use strict::Tally;
use value::Part;

// A number: a value, a count, a length; 1 for yes and 0 for no.
#[repr(C)]
#[derive(Clone, Copy)]
pub struct Answer {
    pub refusal: u32,
    pub value: u64,
}

// An item's header and value lengths.
#[repr(C)]
#[derive(Clone, Copy)]
pub struct Info {
    pub refusal: u32,
    pub header_len: usize,
    pub value_len: usize,
}

// A part of the bytes that were lent.
#[repr(C)]
#[derive(Clone, Copy)]
pub struct Spot {
    pub refusal: u32,
    pub start: usize,
    pub len: usize,
}

// The same, with the place to hand in next time. On a refusal index and offset are those handed in.
#[repr(C)]
#[derive(Clone, Copy)]
pub struct Find {
    pub refusal: u32,
    pub start: usize,
    pub len: usize,
    pub index: usize,
    pub offset: usize,
}

// What an item is: kind 0 null, 1 data of count bytes, 2 a list of count items.
#[repr(C)]
#[derive(Clone, Copy)]
pub struct Kind {
    pub refusal: u32,
    pub kind: u32,
    pub count: usize,
}

// How many items, itself included, and how many levels.
#[repr(C)]
#[derive(Clone, Copy)]
pub struct Count {
    pub refusal: u32,
    pub items: usize,
    pub depth: usize,
}

impl From<Result<u64, Refusal>> for Answer {
    ghost from_gives = { λ said answer. answer ≡ answered said };

    #[tactic(auto, unfolding(crate::specs::Answers::answered))]
    fn from(said: Result<u64, Refusal>) -> Answer {
        match said {
            Ok(value) => Answer { refusal: 0, value },
            Err(e) => Answer {
                refusal: u32::from(e.number()),
                value: 0,
            },
        }
    }
}

// From usize to u64 there is no `From`.
impl From<Result<usize, Refusal>> for Answer {
    ghost from_gives = { λ said answer. answer ≡ answered said };

    fn from(said: Result<usize, Refusal>) -> Answer {
        said.map(|n| n as u64).into()
    }
}

impl From<Result<bool, Refusal>> for Answer {
    ghost from_gives = { λ said answer. answer ≡ asked said };

    #[tactic(auto, using(crate::proofs::Truths::yes_so), unfolding(crate::specs::Answers::asked, crate::specs::Answers::answered))]
    fn from(said: Result<bool, Refusal>) -> Answer {
        said.map(u64::from).into()
    }
}

impl From<Result<PayloadInfo, Refusal>> for Info {
    ghost from_gives = { λ said answer. answer ≡ informed said };

    #[tactic(auto, unfolding(crate::specs::Answers::informed))]
    fn from(said: Result<PayloadInfo, Refusal>) -> Info {
        match said {
            Ok(info) => Info {
                refusal: 0,
                header_len: info.header_len,
                value_len: info.value_len,
            },
            Err(e) => Info {
                refusal: u32::from(e.number()),
                header_len: 0,
                value_len: 0,
            },
        }
    }
}

impl From<Result<Part, Refusal>> for Spot {
    ghost from_gives = { λ said answer. answer ≡ situated said };

    #[tactic(auto, unfolding(crate::specs::Answers::situated))]
    fn from(said: Result<Part, Refusal>) -> Spot {
        match said {
            Ok(part) => Spot {
                refusal: 0,
                start: part.start,
                len: part.len,
            },
            Err(e) => Spot {
                refusal: u32::from(e.number()),
                start: 0,
                len: 0,
            },
        }
    }
}

impl From<Result<Prototype, Refusal>> for Kind {
    ghost from_gives = { λ said answer. answer ≡ prototyped said };

    #[tactic(auto, unfolding(crate::specs::Answers::prototyped))]
    fn from(said: Result<Prototype, Refusal>) -> Kind {
        match said {
            Ok(Prototype::Null) => Kind {
                refusal: 0,
                kind: 0,
                count: 0,
            },
            Ok(Prototype::Data(count)) => Kind {
                refusal: 0,
                kind: 1,
                count,
            },
            Ok(Prototype::List(count)) => Kind {
                refusal: 0,
                kind: 2,
                count,
            },
            Err(e) => Kind {
                refusal: u32::from(e.number()),
                kind: 0,
                count: 0,
            },
        }
    }
}

impl From<Result<Tally, Refusal>> for Count {
    ghost from_gives = { λ said answer. answer ≡ tallied said };

    #[tactic(auto, unfolding(crate::specs::Answers::tallied))]
    fn from(said: Result<Tally, Refusal>) -> Count {
        match said {
            Ok(tally) => Count {
                refusal: 0,
                items: tally.items,
                depth: tally.depth,
            },
            Err(e) => Count {
                refusal: u32::from(e.number()),
                items: 0,
                depth: 0,
            },
        }
    }
}

// What specs/Claims.antt claims is proved.
fn claimed()
    ensures { Claimed }
{}
