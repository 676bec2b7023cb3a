//! The lists of the folder sample/, byte for byte: `tools/pages/sample-lists` compares them.

pub(crate) const BRANCHES: &[u8] = b"\
branch,balance,cash\n\
1,60000,100000\n\
2,20000,50000\n\
";

pub(crate) const TELLERS: &[u8] = b"\
teller,branch,balance\n\
11,1,60000\n\
12,1,0\n\
21,2,20000\n\
";

pub(crate) const ACCOUNTS: &[u8] = b"\
account,home,balance,floor\n\
101,1,50000,0\n\
102,1,0,0\n\
201,2,30000,0\n\
";

pub(crate) const USERS: &[u8] = b"\
user,name,officer\n\
1,Olga,1\n\
2,Carl,0\n\
3,Cora,0\n\
7,Tess,0\n\
8,Tom,0\n\
9,Sue,0\n\
";

pub(crate) const SETS: &[u8] = b"\
set,kind,low,high\n\
1,account,1,999999\n\
1,teller,1,999\n\
1,branch,1,99\n\
1,history,1,99\n\
1,drawer,1,999\n\
1,vault,1,99\n\
2,account,101,102\n\
2,account,201,201\n\
2,teller,11,12\n\
2,branch,1,1\n\
2,history,1,1\n\
2,drawer,11,12\n\
2,vault,1,1\n\
3,account,101,101\n\
3,teller,11,12\n\
3,branch,1,1\n\
3,history,1,1\n\
3,drawer,11,12\n\
4,account,102,102\n\
4,teller,11,12\n\
4,branch,1,1\n\
4,history,1,1\n\
4,drawer,11,12\n\
5,account,101,150\n\
5,account,102,199\n\
";

pub(crate) const RELATIONS: &[u8] = b"\
procedure,set,by\n\
post,1,2\n\
transfer,1,2\n\
new-account,1,2\n\
release,1,2\n\
balance,1,2\n\
post,2,2\n\
transfer,2,2\n\
correct,2,2\n\
drawer-on,2,2\n\
drawer-off,2,2\n\
move-cash,2,2\n\
balance,2,2\n\
statement,2,2\n\
proof,2,2\n\
close-day,2,2\n\
transfer,3,2\n\
transfer,4,2\n\
accounts,5,2\n\
";

pub(crate) const TRIPLES: &[u8] = b"\
user,procedure,set,limit\n\
7,post,2,999999\n\
7,transfer,3,50000\n\
7,transfer,4,50000\n\
7,correct,2,999999\n\
7,drawer-on,2,100000\n\
7,drawer-off,2,0\n\
7,move-cash,2,100000\n\
7,balance,2,0\n\
7,statement,2,0\n\
7,accounts,5,0\n\
8,post,1,1000\n\
8,post,2,50000\n\
8,transfer,1,1000\n\
8,transfer,2,50000\n\
8,correct,2,999999\n\
8,drawer-on,2,100000\n\
8,drawer-off,2,0\n\
9,new-account,1,0\n\
9,release,1,999999\n\
9,proof,2,0\n\
9,close-day,2,0\n\
";

pub(crate) const CERTIFIERS: &[u8] = b"\
user,procedure\n\
2,post\n\
2,transfer\n\
2,correct\n\
2,drawer-on\n\
2,drawer-off\n\
2,move-cash\n\
2,new-account\n\
2,release\n\
2,balance\n\
2,statement\n\
2,accounts\n\
2,proof\n\
2,close-day\n\
3,post\n\
3,transfer\n\
3,correct\n\
3,drawer-on\n\
3,drawer-off\n\
3,move-cash\n\
3,new-account\n\
3,release\n\
3,balance\n\
3,statement\n\
3,accounts\n\
3,proof\n\
3,close-day\n\
";

pub(crate) const BADGES: &[u8] = b"\
badge,user\n\
olga,1\n\
carl,2\n\
cora,3\n\
tess,7\n\
tom,8\n\
sue,9\n\
";

/// The eight opening lists, in their order.
pub(crate) const OPENING: [&[u8]; 8] = [
    BRANCHES, TELLERS, ACCOUNTS, USERS, SETS, RELATIONS, TRIPLES, CERTIFIERS,
];
