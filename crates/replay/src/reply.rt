// The line for a case, computed on slices.
ghost use Rattle.std.specs.Prelude.{◌≡◌, ◌+◌, ◌≤◌, length, take};
ghost use Rattle.io.specs.Counts.{IsPrefixLen};
ghost use Rattle.program_feed.specs.Cases.{bytes_in, head_size, longest};
ghost use Rattle.program_reply.specs.Reply.{answer_line, longest_answer};
ghost use Rattle.replay.specs.Replies.{held_by, ImageHeld, Checked, Measured, Tallied, Picked, Written, Tidied, Replies, line_room, pair_room};
ghost use Rattle.answer.specs.Table.{limit};

use answer::Answer;
use program_feed::case::{Ask, HEAD, case_in};
use program_held::{held, put_bare, put_count};
use program_reply::{put_answer, put_broken, put_pair};
use text::part::part_of;
use unit::check::check;
use unit::pick::{pick, picked};
use unit::read::{read, reading};
use unit::size::size;
use unit::tidy::tidy;
use unit::write::write;

// The line of an answer and some bytes, put to the start of a buffer that holds it; how many bytes it is.
fn put_line(a: Answer, s: &[u8], line: &mut [u8]) -> usize
    requires { longest_answer + (length s.now + length s.now) ≤ length line.old }
    ensures is { take result line.new ≡ answer_line a s.now }
    ensures within { IsPrefixLen result line.new }
{
    put_answer(a, s, line).unwrap()
}

// The line of a call's answer, with what it then holds in the buffer that it was lent.
fn put_filled(a: Answer, buffer: &[u8], line: &mut [u8]) -> usize
    requires { (length buffer.now ≤ limit) × (line_room ≤ length line.old) }
    ensures is { take result line.new ≡ answer_line a (held_by a buffer.now) }
    ensures within { IsPrefixLen result line.new }
{
    put_line(a, part_of(buffer, 0, held(a)), line)
}

// A check, for a buffer with the case's room.
fn checked(file: &[u8], buffer: &mut [u8], line: &mut [u8]) -> usize
    requires { (length buffer.old ≤ limit) × (line_room ≤ length line.old) }
    ensures is { Checked file.now buffer.old buffer.new (take result line.new) }
    ensures within { IsPrefixLen result line.new }
{
    let a = check(file, buffer);
    put_filled(a, buffer, line)
}

// A write, for a buffer with the case's room.
fn written(run: &[u8], buffer: &mut [u8], line: &mut [u8]) -> usize
    requires { (length buffer.old ≤ limit) × (line_room ≤ length line.old) }
    ensures is { Written run.now buffer.old buffer.new (take result line.new) }
    ensures within { IsPrefixLen result line.new }
{
    let a = write(run, buffer);
    put_filled(a, buffer, line)
}

// A read.
fn measured(run: &[u8], line: &mut [u8]) -> usize
    requires { line_room ≤ length line.old }
    ensures is { Measured run.now (take result line.new) }
    ensures within { IsPrefixLen result line.new }
{
    put_bare(read(run), line).unwrap()
}

// How many bytes of a file's image check leaves in a buffer of so much room: by the file alone, so that the buffer itself shows what was written.
fn image_held(file: &[u8], room: usize) -> usize
    ensures within { result ≤ room }
    ensures is { ImageHeld file.now room result }
{
    let n = held(size(file));
    if n <= room {
        return n;
    }
    0
}

// A tidying, for buffers with the case's rooms.
fn tidied(file: &[u8], image: &mut [u8], out: &mut [u8], line: &mut [u8]) -> usize
    requires { (length image.old ≤ limit) × ((length out.old ≤ limit) × (pair_room ≤ length line.old)) }
    ensures is { Tidied file.now image.old out.old image.new out.new (take result line.new) }
    ensures within { IsPrefixLen result line.new }
{
    let a = tidy(file, image, out);
    let m = image_held(file, image.len());
    let n = held(a);
    put_pair(a, &image[..m], &out[..n], line).unwrap()
}

// A read, with the number of items in four bytes.
fn tallied(run: &[u8], line: &mut [u8]) -> usize
    requires { line_room ≤ length line.old }
    ensures is { Tallied run.now (take result line.new) }
    ensures within { IsPrefixLen result line.new }
{
    let told = reading(run);
    put_count(told.answer, told.count, line).unwrap()
}

// A pick, with its part.
fn part_picked(run: &[u8], row: usize, nth: usize, line: &mut [u8]) -> usize
    requires { (length run.now ≤ longest) × (line_room ≤ length line.old) }
    ensures is { Picked run.now row nth (take result line.new) }
    ensures within { IsPrefixLen result line.new }
{
    let a = pick(run, row, nth);
    let part = picked(run, row, nth);
    put_line(a, part, line)
}

// A case's bytes after its head.
fn bytes_behind<'a>(feed: &'a [u8], size: usize) -> &'a [u8]
    requires { head_size + size ≤ length feed.now }
    ensures { result.now ≡ bytes_in size feed.now }
{
    &feed[HEAD..HEAD + size]
}

// The line for the case that a feed begins with, its number counted from 0; how many bytes it is. Of the feed, no more than the case need be there.
pub(crate) fn reply(
    feed: &[u8],
    number: u64,
    buffer: &mut [u8],
    second: &mut [u8],
    line: &mut [u8],
) -> usize
    requires { (limit ≤ length buffer.old) × ((limit ≤ length second.old) × (pair_room ≤ length line.old)) }
    ensures is { Replies feed.now number (take result line.new) }
    ensures within { IsPrefixLen result line.new }
{
    let Some(case) = case_in(feed) else {
        return put_broken(number, line).unwrap();
    };
    let bytes = bytes_behind(feed, case.size);
    match case.ask {
        Ask::Check { room } => checked(bytes, &mut buffer[..room], line),
        Ask::Read => measured(bytes, line),
        Ask::Pick { row, nth } => part_picked(bytes, row, nth, line),
        Ask::Write { room } => written(bytes, &mut buffer[..room], line),
        Ask::Count => tallied(bytes, line),
        Ask::Tidy { room, space } => {
            tidied(bytes, &mut buffer[..room], &mut second[..space], line)
        }
    }
}
