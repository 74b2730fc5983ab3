//! Which messages are lost.
ghost use Rattle.std.specs.Prelude.{◌≡◌};
ghost use Rattle.rp_workers.specs.Losses.{is_lost};

use rand_core::utils::NextWord;
use rand_pcg::Lcg64Xsh32;
use rp_base::NodeId;

/// Whether the message of this number, counted from 1, that the sender sent is lost, where so many
/// of a hundred are and the salt picks which. Each message is judged by a generator of its own, so
/// the answer is the same whenever and however often it is asked. At 0 percent none is lost, from
/// 100 on all are.
pub fn lost(percent: u8, salt: u64, sender: NodeId, number: u64) -> bool
    ensures { result ≡ is_lost percent salt sender number }
{
    let mut draws = Lcg64Xsh32::new(salt.wrapping_add(number), u64::from(sender.get()));
    draws.next_word() % 100 < u32::from(percent)
}
