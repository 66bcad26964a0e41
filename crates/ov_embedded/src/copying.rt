// Bytes into the room that an embedder has for them.
ghost use Rattle.ov_embedded.specs.Calling.{IsCopied};

#[tactic(auto, using(crate::proofs::Copies::whole_front, crate::proofs::Copies::front_part))]
/// Copies bytes into some room, as far as that goes, and tells how many they are.
pub(crate) fn copy_into(bytes: &[u8], room: &mut [u8]) -> usize
    ensures { IsCopied bytes.now room.old room.new result }
{
    if bytes.len() <= room.len() {
        let (front, _) = room.split_at_mut(bytes.len());
        front.copy_from_slice(bytes);
    } else {
        room.copy_from_slice(&bytes[..room.len()]);
    }
    bytes.len()
}
