//! Laws of the definitions: each has an empty body, and its contract is the law.
ghost use Rattle.std.specs.Prelude.{◌≡◌};
ghost use Rattle.rp_lines.specs.Players.{first_player};
ghost use Rattle.rp_lines.specs.Scripts.{played_all};
ghost use Rattle.rp_lines.specs.Worked.{notes_after, notes_expected, notes_script, removal, removal_replies, replies_after};

/// A removal in a script of three nodes: what waits is refused, and so are a further attempt there and
/// a command that comes to a node without the lease.
pub fn a_removal_is_told()
    ensures { replies_after (played_all (first_player 3) removal) ≡ removal_replies }
{}

/// What lines have to tell, in the words of the script: a held lease, another holder, nothing to apply,
/// no message, no replica.
pub fn lines_tell_what_they_find()
    ensures { notes_after (played_all (first_player 3) notes_script) ≡ notes_expected }
{}
