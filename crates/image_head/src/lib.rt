// The first bytes of an image, as both passes that write one put them.
#![tactic(auto)]

ghost use Rattle.std.specs.Prelude.{◌≡◌, length};
ghost use Rattle.text.specs.Pasting.{pasted};
ghost use Rattle.image_head.specs.Head.{head_of, HeadPut};

use text_bytes::number::copy;

// `KTO`, version 2 in 16 bits, the kind byte, and the root's row byte.
pub fn put_head(out: &mut [u8], kind: u8) -> usize
    ensures is { (result ≡ length (head_of kind)) × (out.new ≡ pasted out.old 0 (head_of kind)) }
    ensures means { HeadPut kind out.old result out.new }
{
    let head = [b'K', b'T', b'O', 0, 2, kind, 1];
    copy(&head, 0, head.len(), out, 0);
    head.len()
}
