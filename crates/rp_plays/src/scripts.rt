//! Scripts and what the rules make of them.

/// One put.
pub const ONE_PUT: &str = "\
cluster 1\nsend 1 0 1 put a 5\nflush 1 0\napply 1 0\nend\n";

/// Its report.
pub const ONE_PUT_SHOWN: &str = "\
nodes 1\nreply 1.1 1 ok none\nrange 0 ^ ~ level 0 lease 1 1 40\n\
place 1 write 1.1 1 put a 5 under 1 ok none\nnode 1 live term 1 applied 1 lai 1\nrow a 5\nend\n";

/// Its summary.
pub const ONE_PUT_COUNTED: &str = "\
commands 1\nattempts 1\nok 1\nrefused 0\nambiguous 0\npending 0\nranges 1\nplaces 1\npassed 0\n\
messages 0\n";

/// The greatest value is reached and not passed.
pub const END_OF_THE_TYPE: &str = "\
cluster 1\nsend 1 0 1 put a 1\nflush 1 0\napply 1 0\nsend 1 0 1 add a 18446744073709551615\n\
send 1 0 1 add b 18446744073709551615\nflush 1 0\napply 1 0\nend\n";

/// Its report.
pub const END_OF_THE_TYPE_SHOWN: &str = "\
nodes 1\nreply 1.1 1 ok none\nreply 1.2 1 refused overflow 1\n\
reply 1.3 1 ok 18446744073709551615\nrange 0 ^ ~ level 0 lease 1 1 40\n\
place 1 write 1.1 1 put a 1 under 1 ok none\n\
place 2 write 1.3 1 add b 18446744073709551615 under 1 ok 18446744073709551615\n\
node 1 live term 1 applied 2 lai 2\nrow a 1\nrow b 18446744073709551615\nend\n";

/// A move of a key to itself, and one that is short.
pub const TWO_NAMES: &str = "\
cluster 1\nsend 1 0 1 put a 3\nflush 1 0\napply 1 0\nsend 1 0 1 move a a 3\nflush 1 0\n\
apply 1 0\nsend 1 0 1 move a b 4\nend\n";

/// Its report.
pub const TWO_NAMES_SHOWN: &str = "\
nodes 1\nreply 1.1 1 ok none\nreply 1.2 1 ok 3\nreply 1.3 1 refused short 3\n\
range 0 ^ ~ level 0 lease 1 1 40\nplace 1 write 1.1 1 put a 3 under 1 ok none\n\
place 2 write 1.2 1 move a a 3 under 1 ok 3\nnode 1 live term 1 applied 2 lai 2\nrow a 3\nend\n";

/// A text is put, not counted with, and replaced where it is expected.
pub const A_TEXT: &str = "\
cluster 1\nsend 1 0 1 put a 'hi\nflush 1 0\napply 1 0\nsend 1 0 1 add a 1\n\
send 1 0 1 cput a 'hi 7\nflush 1 0\napply 1 0\nsend 1 0 1 add a 1\nflush 1 0\napply 1 0\nend\n";

/// Its report.
pub const A_TEXT_SHOWN: &str = "\
nodes 1\nreply 1.1 1 ok none\nreply 1.2 1 refused is-text a\nreply 1.3 1 ok set\n\
reply 1.4 1 ok 8\nrange 0 ^ ~ level 0 lease 1 1 40\n\
place 1 write 1.1 1 put a 'hi under 1 ok none\nplace 2 write 1.3 1 cput a 'hi 7 under 1 ok set\n\
place 3 write 1.4 1 add a 1 under 1 ok 8\nnode 1 live term 1 applied 3 lai 3\nrow a 8\nend\n";

/// Conditions and deletions.
pub const CONDITIONS: &str = "\
cluster 1\nsend 1 0 1 put a 1\nflush 1 0\napply 1 0\nsend 1 0 1 cput a none 2\n\
send 1 0 1 cput a 1 2\nflush 1 0\napply 1 0\nsend 1 0 1 wipe a b\nflush 1 0\napply 1 0\n\
send 1 0 1 del a\nflush 1 0\napply 1 0\nend\n";

/// Its report.
pub const CONDITIONS_SHOWN: &str = "\
nodes 1\nreply 1.1 1 ok none\nreply 1.2 1 refused condition-failed 1\nreply 1.3 1 ok set\n\
reply 1.4 1 ok 1\nreply 1.5 1 ok none\nrange 0 ^ ~ level 0 lease 1 1 40\n\
place 1 write 1.1 1 put a 1 under 1 ok none\nplace 2 write 1.3 1 cput a 1 2 under 1 ok set\n\
place 3 write 1.4 1 wipe a b under 1 ok 1\nplace 4 write 1.5 1 del a under 1 ok none\n\
node 1 live term 1 applied 4 lai 4\nend\n";

/// A wipe of 17 keys is refused, one of 16 is not.
pub const WIPES: &str = "\
cluster 1\nsend 1 0 1 put k01 1\nflush 1 0\napply 1 0\nsend 1 0 1 put k02 1\nflush 1 0\n\
apply 1 0\nsend 1 0 1 put k03 1\nflush 1 0\napply 1 0\nsend 1 0 1 put k04 1\nflush 1 0\n\
apply 1 0\nsend 1 0 1 put k05 1\nflush 1 0\napply 1 0\nsend 1 0 1 put k06 1\nflush 1 0\n\
apply 1 0\nsend 1 0 1 put k07 1\nflush 1 0\napply 1 0\nsend 1 0 1 put k08 1\nflush 1 0\n\
apply 1 0\nsend 1 0 1 put k09 1\nflush 1 0\napply 1 0\nsend 1 0 1 put k10 1\nflush 1 0\n\
apply 1 0\nsend 1 0 1 put k11 1\nflush 1 0\napply 1 0\nsend 1 0 1 put k12 1\nflush 1 0\n\
apply 1 0\nsend 1 0 1 put k13 1\nflush 1 0\napply 1 0\nsend 1 0 1 put k14 1\nflush 1 0\n\
apply 1 0\nsend 1 0 1 put k15 1\nflush 1 0\napply 1 0\nsend 1 0 1 put k16 1\nflush 1 0\n\
apply 1 0\nsend 1 0 1 put k17 1\nflush 1 0\napply 1 0\nsend 1 0 1 wipe k01 k18\n\
send 1 0 1 wipe k02 k18\nflush 1 0\napply 1 0\npeek 1 0 k01\napply 1 0\nend\n";

/// Its report.
pub const WIPES_SHOWN: &str = "\
nodes 1\nnote 57 peek k01 1 applied 18\nnote 58 nothing\nreply 1.1 1 ok none\n\
reply 1.2 1 ok none\nreply 1.3 1 ok none\nreply 1.4 1 ok none\nreply 1.5 1 ok none\n\
reply 1.6 1 ok none\nreply 1.7 1 ok none\nreply 1.8 1 ok none\nreply 1.9 1 ok none\n\
reply 1.10 1 ok none\nreply 1.11 1 ok none\nreply 1.12 1 ok none\nreply 1.13 1 ok none\n\
reply 1.14 1 ok none\nreply 1.15 1 ok none\nreply 1.16 1 ok none\nreply 1.17 1 ok none\n\
reply 1.18 1 refused too-wide 17\nreply 1.19 1 ok 16\nrange 0 ^ ~ level 0 lease 1 1 40\n\
place 1 write 1.1 1 put k01 1 under 1 ok none\nplace 2 write 1.2 1 put k02 1 under 1 ok none\n\
place 3 write 1.3 1 put k03 1 under 1 ok none\nplace 4 write 1.4 1 put k04 1 under 1 ok none\n\
place 5 write 1.5 1 put k05 1 under 1 ok none\nplace 6 write 1.6 1 put k06 1 under 1 ok none\n\
place 7 write 1.7 1 put k07 1 under 1 ok none\nplace 8 write 1.8 1 put k08 1 under 1 ok none\n\
place 9 write 1.9 1 put k09 1 under 1 ok none\nplace 10 write 1.10 1 put k10 1 under 1 ok none\n\
place 11 write 1.11 1 put k11 1 under 1 ok none\n\
place 12 write 1.12 1 put k12 1 under 1 ok none\n\
place 13 write 1.13 1 put k13 1 under 1 ok none\n\
place 14 write 1.14 1 put k14 1 under 1 ok none\n\
place 15 write 1.15 1 put k15 1 under 1 ok none\n\
place 16 write 1.16 1 put k16 1 under 1 ok none\n\
place 17 write 1.17 1 put k17 1 under 1 ok none\n\
place 18 write 1.19 1 wipe k02 k18 under 1 ok 16\nnode 1 live term 1 applied 18 lai 18\n\
row k01 1\nend\n";

/// The buffer has 16 places; the 17th command stays pending.
pub const FULL: &str = "\
cluster 1\nsend 1 0 1 put k01 1\nsend 1 0 1 put k02 1\nsend 1 0 1 put k03 1\n\
send 1 0 1 put k04 1\nsend 1 0 1 put k05 1\nsend 1 0 1 put k06 1\nsend 1 0 1 put k07 1\n\
send 1 0 1 put k08 1\nsend 1 0 1 put k09 1\nsend 1 0 1 put k10 1\nsend 1 0 1 put k11 1\n\
send 1 0 1 put k12 1\nsend 1 0 1 put k13 1\nsend 1 0 1 put k14 1\nsend 1 0 1 put k15 1\n\
send 1 0 1 put k16 1\nsend 1 0 1 put k17 1\nflush 1 0\napply 1 0\napply 1 0\napply 1 0\n\
apply 1 0\napply 1 0\napply 1 0\napply 1 0\napply 1 0\napply 1 0\napply 1 0\napply 1 0\n\
apply 1 0\napply 1 0\napply 1 0\napply 1 0\napply 1 0\nend\n";

/// Its report.
pub const FULL_SHOWN: &str = "\
nodes 1\nnote 18 full 16\nreply 1.1 1 ok none\nreply 1.2 1 ok none\nreply 1.3 1 ok none\n\
reply 1.4 1 ok none\nreply 1.5 1 ok none\nreply 1.6 1 ok none\nreply 1.7 1 ok none\n\
reply 1.8 1 ok none\nreply 1.9 1 ok none\nreply 1.10 1 ok none\nreply 1.11 1 ok none\n\
reply 1.12 1 ok none\nreply 1.13 1 ok none\nreply 1.14 1 ok none\nreply 1.15 1 ok none\n\
reply 1.16 1 ok none\nreply 1.17 1 pending\nrange 0 ^ ~ level 0 lease 1 1 40\n\
place 1 write 1.1 1 put k01 1 under 1 ok none\nplace 2 write 1.2 1 put k02 1 under 1 ok none\n\
place 3 write 1.3 1 put k03 1 under 1 ok none\nplace 4 write 1.4 1 put k04 1 under 1 ok none\n\
place 5 write 1.5 1 put k05 1 under 1 ok none\nplace 6 write 1.6 1 put k06 1 under 1 ok none\n\
place 7 write 1.7 1 put k07 1 under 1 ok none\nplace 8 write 1.8 1 put k08 1 under 1 ok none\n\
place 9 write 1.9 1 put k09 1 under 1 ok none\nplace 10 write 1.10 1 put k10 1 under 1 ok none\n\
place 11 write 1.11 1 put k11 1 under 1 ok none\n\
place 12 write 1.12 1 put k12 1 under 1 ok none\n\
place 13 write 1.13 1 put k13 1 under 1 ok none\n\
place 14 write 1.14 1 put k14 1 under 1 ok none\n\
place 15 write 1.15 1 put k15 1 under 1 ok none\n\
place 16 write 1.16 1 put k16 1 under 1 ok none\nnode 1 live term 1 applied 16 lai 16\n\
row k01 1\nrow k02 1\nrow k03 1\nrow k04 1\nrow k05 1\nrow k06 1\nrow k07 1\nrow k08 1\n\
row k09 1\nrow k10 1\nrow k11 1\nrow k12 1\nrow k13 1\nrow k14 1\nrow k15 1\nrow k16 1\nend\n";

/// Replies stand by client, rows by key.
pub const TWO_CLIENTS: &str = "\
# two clients\n\ncluster 1\nsend 1 0 9 put b 1\nflush 1 0\napply 1 0\nsend 1 0 2 put b 2\n\
flush 1 0\napply 1 0\nsend 1 0 9 put a 3\nflush 1 0\napply 1 0\nend";

/// Its report.
pub const TWO_CLIENTS_SHOWN: &str = "\
nodes 1\nreply 2.1 1 ok 1\nreply 9.1 1 ok none\nreply 9.2 1 ok none\n\
range 0 ^ ~ level 0 lease 1 1 40\nplace 1 write 9.1 1 put b 1 under 1 ok none\n\
place 2 write 2.1 1 put b 2 under 1 ok 1\nplace 3 write 9.2 1 put a 3 under 1 ok none\n\
node 1 live term 1 applied 3 lai 3\nrow a 3\nrow b 2\nend\n";

/// Nothing is sent.
pub const NO_LINE: &str = "\
cluster 1\nend\n";

/// Its report.
pub const NO_LINE_SHOWN: &str = "\
nodes 1\nrange 0 ^ ~ level 0 lease 1 1 40\nnode 1 live term 1 applied 0 lai 0\nend\n";

/// Its report as JSON.
pub const NO_LINE_JSON: &str = "{\"nodes\":1,\"notes\":[],\"ranges\":[{\"end\":\"~\",\"id\":0,\
\"lease\":[1,1,40],\"level\":0,\"list\":[],\"replicas\":[{\"applied\":0,\"lai\":0,\"node\":1,\
\"rows\":[],\"state\":\"live\",\"term\":1}],\"start\":\"^\"}],\"replies\":[]}\n";

/// A key that is held, a range that is not there, and a text that is seen.
pub const NOTES: &str = "\
cluster 1\nsend 1 0 1 put a 'hi\nsend 1 0 2 put a 'hi\nflush 1 0\napply 1 0\npeek 1 0 a\n\
peek 1 3 a\nsend 1 3 1 put a 1\nend\n";

/// Its report.
pub const NOTES_SHOWN: &str = "\
nodes 1\nnote 6 peek a 'hi applied 1\nnote 7 no-replica\nreply 1.1 1 ok none\n\
reply 1.2 1 refused no-replica\nreply 2.1 1 refused latched 1.1 1\n\
range 0 ^ ~ level 0 lease 1 1 40\nplace 1 write 1.1 1 put a 'hi under 1 ok none\n\
node 1 live term 1 applied 1 lai 1\nrow a 'hi\nend\n";
