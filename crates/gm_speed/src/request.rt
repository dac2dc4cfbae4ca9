//! What the words ask for.

ghost use Rattle.std.specs.Prelude.{◌≤◌, IfSome};
ghost use Rattle.gm_speed.specs.declared.order.TheConstants.{LARGEST};

use crate::order::{LARGEST, Order};

/// A part of the core whose operation is timed.
#[derive(Clone, Copy, Debug, PartialEq, Eq)]
pub enum Part {
    Ranges,
    Words,
    Pool,
    File,
    Attr,
    Table,
    Tlb,
    Inval,
    Slots,
    Mmu,
    Fault,
}

impl Part {
    /// Its word.
    pub fn name(self) -> &'static str {
        match self {
            Part::Ranges => "ranges",
            Part::Words => "words",
            Part::Pool => "pool",
            Part::File => "file",
            Part::Attr => "attr",
            Part::Table => "table",
            Part::Tlb => "tlb",
            Part::Inval => "inval",
            Part::Slots => "slots",
            Part::Mmu => "mmu",
            Part::Fault => "fault",
        }
    }
}

/// A part, an order, and how often its operation is done: at most 65,536 times.
#[derive(Clone, Copy, Debug, PartialEq, Eq)]
pub struct Request {
    pub part: Part,
    pub order: Order,
    pub count: u32,
}

fn read_part(word: &str) -> Option<Part> {
    match word {
        "ranges" => Some(Part::Ranges),
        "words" => Some(Part::Words),
        "pool" => Some(Part::Pool),
        "file" => Some(Part::File),
        "attr" => Some(Part::Attr),
        "table" => Some(Part::Table),
        "tlb" => Some(Part::Tlb),
        "inval" => Some(Part::Inval),
        "slots" => Some(Part::Slots),
        "mmu" => Some(Part::Mmu),
        "fault" => Some(Part::Fault),
        _ => None,
    }
}

fn read_order(word: &str) -> Option<Order> {
    match word {
        "rising" => Some(Order::Rising),
        "random" => Some(Order::Random),
        _ => None,
    }
}

fn read_count(word: &str) -> Option<u32>
    ensures { IfSome result (λ count. count ≤ LARGEST) }
{
    match word.parse::<u32>() {
        Ok(count) => { if count <= LARGEST { Some(count) } else { None } }
        Err(_) => None,
    }
}

/// What the words `PART ORDER COUNT` ask for. None where they aren't three words of this form.
pub fn read_request(words: &[String]) -> Option<Request>
    ensures bound { IfSome result (λ request. request.count ≤ LARGEST) }
{
    match words {
        [part, order, count] => {
            let part = read_part(part.as_str())?;
            let order = read_order(order.as_str())?;
            let count = read_count(count.as_str())?;
            Some(Request { part, order, count })
        }
        _ => None,
    }
}
