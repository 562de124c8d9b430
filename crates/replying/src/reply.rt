// The reply to a request, and with it what changes in the record that the request means.
ghost use Rattle.std.specs.Prelude.{◌≡◌};
ghost use Rattle.octets.specs.Numbers.{number_of};
ghost use Rattle.replying.specs.Reply.{refusal_reply, error_reply, decided_reply, decided_answer, unchanged_answer};
ghost use Rattle.replying.specs.Reply.{moved, list_replaced};

use deciding::decide::{Decision, Effect};
use findings::seen::{Offsets, Seen, nothing_seen};
use octets::number::Number;
use records::ike::Marks;
use responding::respond::Response;

// All that a call gives back but the tables. The cookie is the part of the body at `cookie`. The default tells done,
// and nothing else.
#[repr(C)]
#[derive(Clone, Copy, Default)]
pub struct Reply {
    pub number: u8,
    pub update: u8,
    pub list: u8,
    pub first: u8,
    pub left_off: u16,
    pub payloads: u16,
    pub offset: u16,
    pub ordinal: u16,
    pub cookie: u16,
    pub cookie_len: u16,
    pub length: u16,
}

impl Reply {
    // A number as it is told, an offset and an ordinal, with an error that was written.
    pub fn error(number: u8, offset: u16, ordinal: u16, response: Response) -> Reply
        ensures { result ≡ error_reply number offset ordinal response }
    {
        Reply {
            number,
            first: response.first,
            offset,
            ordinal,
            length: response.length,
            ..Reply::default()
        }
    }

    // A number and nothing else.
    pub fn refusal(number: Number) -> Reply
        ensures { result ≡ refusal_reply (number_of number) }
    {
        Reply {
            number: u8::from(number),
            ..Reply::default()
        }
    }

    // All that is told of a decision.
    pub fn decided(d: Decision, seen: Seen, response: Response) -> Reply
        ensures { result ≡ decided_reply d seen response }
    {
        Reply {
            number: u8::from(d.verdict.told()),
            update: u8::from(d.update),
            list: u8::from(d.list),
            first: response.first,
            left_off: d.left_off,
            payloads: seen.tally.payloads,
            offset: 0,
            ordinal: 0,
            cookie: seen.cookie,
            cookie_len: seen.cookie_len,
            length: response.length,
        }
    }
}

// The reply, and what changes in the record: its marks; its pair and its pending check, where the reply says that the
// update was applied; its list, where the reply says that it was replaced, by where it stands in the body.
#[derive(Clone, Copy)]
pub struct CoreAnswer {
    pub reply: Reply,
    pub marks: Marks,
    pub list: Offsets,
}

impl CoreAnswer {
    // The reply to a decision, and what it changes in the record.
    pub fn decided(d: Decision, seen: Seen, response: Response) -> CoreAnswer
        ensures { result ≡ decided_answer d seen response }
    {
        CoreAnswer {
            reply: Reply::decided(d, seen, response),
            marks: d.marks,
            list: seen.list,
        }
    }

    // A reply that changes nothing in the record.
    pub fn unchanged(reply: Reply, marks: Marks) -> CoreAnswer
        ensures { result ≡ unchanged_answer reply marks }
    {
        CoreAnswer {
            reply,
            marks,
            list: nothing_seen().list,
        }
    }

    // Whether the record moves.
    pub fn moves(&self) -> bool
        ensures { result ≡ moved self.now }
    {
        self.reply.update == u8::from(Effect::Done)
    }

    // Whether the record has another list.
    pub fn replaces_list(&self) -> bool
        ensures { result ≡ list_replaced self.now }
    {
        self.reply.list == u8::from(Effect::Done)
    }
}
