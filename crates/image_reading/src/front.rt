// How a run begins: the list of its first image, by its name, its version and its kind byte, and where the items of that image stand.
ghost use Rattle.std.specs.Prelude.{◌≡◌, ◌≢◌, ◌≤◌, ◌<◌, length, IfSome};
ghost use Rattle.image_reading.specs.Forms.{kind_in, from_in, told_of_head, Headed, Fronts};
ghost use Rattle.image_reading.specs.mirror.Front.{Named, version_of, KindByte, Starts};

use answer::Answer;
use list_house::by_byte::REPORT;

// The image that a run begins with: how long it is, the kind byte of its list, where its items begin, and how many there are, the closing 0
// among them.
#[derive(Clone, Copy)]
pub struct Image {
    pub length: usize,
    pub kind: usize,
    pub from: usize,
    pub count: usize,
}

// Why a run begins with none, and how many items were taken before that was seen.
#[derive(Clone, Copy)]
pub struct Refusal {
    pub answer: Answer,
    pub count: usize,
}

// What a header tells: the kind byte of its list, and where the items begin.
#[derive(Clone, Copy)]
pub struct Head {
    pub kind: usize,
    pub from: usize,
}

// Where the version's second byte stands, and the kind byte after it, in whose place version 1 has its first item; where version 2 has it.
const VERSION_END: usize = Answer::VERSION + 1;

const KIND_BYTE: usize = VERSION_END + 1;

const ITEMS: usize = KIND_BYTE + 1;

// The kind byte of a statement, which version 1 leaves out.
const STATEMENT: usize = 1;

// Five bytes or more, the first three `KTO`.
fn named(run: &[u8]) -> bool
    ensures { Named run.now result }
{
    if run.len() < KIND_BYTE {
        return false;
    }
    if run[0] != b'K' {
        return false;
    }
    if run[1] != b'T' {
        return false;
    }
    run[2] == b'O'
}

// The version, in 16 bits after the name.
fn version(run: &[u8]) -> usize
    requires { 5 ≤ length run.now }
    ensures { result ≡ version_of run.now }
{
    256 * usize::from(run[Answer::VERSION]) + usize::from(run[VERSION_END])
}

// The byte after it, where it is there and a list's.
fn kind_byte(run: &[u8]) -> Option<usize>
    ensures { KindByte run.now result }
{
    if run.len() < ITEMS {
        return None;
    }
    let kind = usize::from(run[KIND_BYTE]);
    if kind == 0 {
        return None;
    }
    if REPORT < kind {
        return None;
    }
    Some(kind)
}

// How a run begins, whatever its length: where an image may begin, the header's length is where its items begin.
fn start(run: &[u8]) -> Result<Head, Answer>
    ensures { Starts run.now (told_of_head result) }
{
    if !named(run) {
        return Err(Answer::no_header());
    }
    let version = version(run);
    if version == 1 {
        return Ok(Head {
            kind: STATEMENT,
            from: KIND_BYTE,
        });
    }
    if version != 2 {
        return Err(Answer::wrong_version());
    }
    let Some(kind) = kind_byte(run) else {
        return Err(Answer::broken_image(KIND_BYTE));
    };
    Ok(Head { kind, from: ITEMS })
}

// The kind byte and the place of the first item, of a run of any length; none where it begins as no image does.
pub fn head_of(run: &[u8]) -> Option<Head>
    ensures is { Headed run.now (kind_in result) (from_in result) }
    ensures known { IfSome result (λ h. h.kind ≢ 0) }
{
    start(run).ok()
}

// All that is asked of a run before its items.
pub fn front(run: &[u8]) -> Result<Head, Answer>
    ensures { Fronts run.now (told_of_head result) }
{
    if Answer::LIMIT < run.len() {
        return Err(Answer::too_long());
    }
    start(run)
}
