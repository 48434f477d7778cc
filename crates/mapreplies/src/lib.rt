// Writes the line of a reply of the mapping judge.
#![tactic(auto)]

ghost use Rattle.std.specs.Prelude.{◌≤◌, length};
ghost use Rattle.text.specs.Writing.{Wrote};
ghost use Rattle.mapcalls.specs.Calls.{built, mapped, reply_means};
ghost use Rattle.mapreplies.specs.Replies.{most_answer, reply_text};

use mapcalls::MapAnswer;
use mappings::Mapping;

// Room for any answer: sixteen digits and a line feed.
pub const ANSWER: usize = 17;

// The line of a profile that was built.
fn put_built(out: &mut [u8], count: u16) -> usize
    requires { most_answer ≤ length out.old }
    ensures { Wrote out.old 0 (reply_text (built count)) out.new result }
{
    let numbers = [count as u64];
    answers::put_line(out, 0, b"accepted", &numbers)
}

// The line of a mapping.
fn put_mapped(out: &mut [u8], mapping: Mapping) -> usize
    requires { most_answer ≤ length out.old }
    ensures { Wrote out.old 0 (reply_text (mapped mapping.masks)) out.new result }
{
    let end = maptext::put_mapping(out, 0, mapping);
    text::put_byte(out, end, b'\n')
}

// The line of any reply.
pub fn put_reply(out: &mut [u8], reply: MapAnswer) -> usize
    requires { most_answer ≤ length out.old }
    ensures { Wrote out.old 0 (reply_text (reply_means reply)) out.new result }
{
    match reply {
        MapAnswer::Forgotten => text::put_byte(out, 0, b'\n'),
        MapAnswer::Built(count) => put_built(out, count),
        MapAnswer::Mapped(mapping) => put_mapped(out, mapping),
        MapAnswer::Yes => text::put_bytes(out, 0, b"yes\n"),
        MapAnswer::No => text::put_bytes(out, 0, b"no\n"),
        MapAnswer::Lacking => text::put_bytes(out, 0, b"no profile\n"),
        MapAnswer::Refused(refusal) => answers::put_refused(out, 0, refusal.number()),
    }
}
