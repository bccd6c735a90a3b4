//! The text of what a taken log is to run, and where.
ghost use Rattle.std.specs.Prelude.{◌≡◌, ◌∷◌, ◌++◌, OnOk};
ghost use Rattle.script_text.specs.Replies.{order_work, order_terms, choice_words};

use crate::writing::{put_number, put_text, put_word};
use job_events::Order;
use job_values::{Choice, NoMemory};
use line_grammar::{write_byte, write_texts, write_word};

/// Which log it is, and what it runs.
fn put_work(out: &mut Vec<u8>, order: &Order) -> Result<(), NoMemory>
    ensures { OnOk result (out.new.items ≡ out.old.items ++ order_work order.now) }
{
    put_number(out, order.log.get())?;
    put_number(out, u64::from(order.job.get()))?;
    put_text(out, &order.handler)?;
    put_text(out, &order.param)
}

/// How it runs.
fn put_terms(out: &mut Vec<u8>, order: &Order) -> Result<(), NoMemory>
    ensures { OnOk result (out.new.items ≡ out.old.items ++ order_terms order.now) }
{
    put_word(out, order.block.text())?;
    put_number(out, u64::from(order.timeout.get()))?;
    put_number(out, order.log_moment.get())?;
    put_number(out, u64::from(order.index.get()))?;
    put_number(out, u64::from(order.total.get()))
}

/// Where it may be sent.
fn put_choice(out: &mut Vec<u8>, choice: &Choice) -> Result<(), NoMemory>
    ensures { OnOk result (out.new.items ≡ out.old.items ++ choice_words choice.now) }
{
    match choice {
        Choice::To(address) => {
            write_word(out, "to")?;
            put_text(out, address)
        }
        Choice::Beat(addresses) => {
            write_word(out, "beat ")?;
            write_texts(out, addresses.as_slice())
        }
        Choice::Idle(addresses) => {
            write_word(out, "idle ")?;
            write_texts(out, addresses.as_slice())
        }
        Choice::NoAddress => write_word(out, "none"),
    }
}

/// The words of an order.
pub(crate) fn put_order(out: &mut Vec<u8>, order: &Order) -> Result<(), NoMemory>
    ensures { OnOk result (out.new.items ≡ out.old.items ++ (order_work order.now ++ order_terms order.now ++ 32 ∷ choice_words order.now.choice)) }
{
    put_work(out, order)?;
    put_terms(out, order)?;
    write_byte(out, b' ')?;
    put_choice(out, &order.choice)
}
