//! Scripts of races, and what is asked of their reports.

/// Four adds by four clients, over three nodes.
pub const FOUR_ADDS: &str = "\
cluster 3\nsend 1 0 1 add a 1\nsend 1 0 2 add b 1\nsend 1 0 3 add c 1\nsend 1 0 4 add d 1\nend\n";

/// One put over one node.
pub const ONE_PUT: &str = "cluster 1\nsend 1 0 1 put a 5\nend\n";

/// Its report.
pub const ONE_PUT_SHOWN: &str = "\
nodes 1\nreply 1.1 1 ok none\nrange 0 ^ ~ level 0 lease 1 1 40\n\
place 1 write 1.1 1 put a 5 under 1 ok none\nnode 1 live term 1 applied 1 lai 1\nrow a 5\nend\n";

/// Its summary.
pub const ONE_PUT_COUNTED: &str = "\
commands 1\nattempts 1\nok 1\nrefused 0\nambiguous 0\npending 0\nranges 1\nplaces 1\npassed 0\n\
messages 0\n";

/// What stands behind a client's reply line, where its one command was an add that made 1.
fn behind_reply<'a>(report: &'a str, begin: &str) -> Option<&'a str> {
    let (line, rest) = report.strip_prefix(begin)?.split_once('\n')?;
    let (_attempt, reply) = line.split_once(" ok ")?;
    if reply == "1" { Some(rest) } else { None }
}

/// Whether a report of the four adds has the four replies `ok 1`, and no other.
pub fn has_four_replies(report: &str) -> bool {
    let Some(mut rest) = report.strip_prefix("nodes 3\n") else {
        return false;
    };
    for begin in ["reply 1.1 ", "reply 2.1 ", "reply 3.1 ", "reply 4.1 "] {
        match behind_reply(rest, begin) {
            Some(behind) => rest = behind,
            None => return false,
        }
    }
    rest.starts_with("range 0 ")
}
