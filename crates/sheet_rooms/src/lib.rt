// The rooms of the sheet program: how much of its input it reads, and where its answer is made. They are as large as any input asks for.
#![tactic(auto)]

ghost use Rattle.std.specs.Prelude.{◌≡◌, ◌≤◌, length, take};
ghost use Rattle.sheet_rooms.specs.Reply.{reply_to, ReplyPromise, Replies};

// The answer: the first `count` bytes.
// Stays: there is no heap, so that they are an array with their number beside it.
#[derive(Clone, Copy)]
pub struct Answer {
    pub bytes: [u8; 36876],
    pub count: usize,
}

impl Answer {
    // The bytes that are printed.
    pub fn text(&self) -> &[u8]
        ensures { result.now ≡ take self.now.count self.now.bytes }
    {
        &self.bytes[..self.count.min(self.bytes.len())]
    }
}

// The answer to the input whose first n bytes `room` has. The room has one byte more than the longest sheet; of a longer input it holds the front, which
// has not the form either.
pub fn reply(room: &[u8; 20878], n: usize) -> Answer
    ensures answer { result ≡ reply_to (take n room.now) }
    ensures whole { Replies room.now n (take result.count result.bytes) }
    ensures hull { ReplyPromise (take n room.now) }
    ensures count { result.count ≤ length result.bytes }
{
    let mut bytes = [0u8; 36876];
    let mut work = [0.0; 4488];
    let read = &room[..n.min(room.len())];
    let count = sheet_text::answer(read, &mut bytes, &mut work);
    Answer { bytes, count }
}
