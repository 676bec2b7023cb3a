//! The texts that the reports of the sample have, line by line.

/// The accounts that Tess is shown, from the first on.
pub const ACCOUNTS: &str = "ACCOUNTS AFTER         0 LINES     2\n\
    \x20     101         1         500.00\n\
    \x20     102         1           0.00\n";

/// The statement of account 102, which has no entry.
pub const EMPTY_STATEMENT: &str = "STATEMENT ACCOUNT       102 FROM         1 LINES     0\n";

/// The statement of account 101 after a post of 25.00 to it at moment 700.
pub const STATEMENT: &str = "STATEMENT ACCOUNT       101 FROM         1 LINES     1\n\
    \x20       1         1         1        11         700    25.00         525.00\n";

/// The proof of branch 1.
pub const PROOF: &str = "PROOF BRANCH         1 DAY      1\n\
    TELLER        11         600.00         400.00    7\n\
    TELLER        12           0.00          50.00    8\n\
    TELLERS TOTAL             600.00\n\
    BRANCH BALANCE            600.00\n\
    HISTORY TOTAL               0.00\n\
    OPENING BALANCE           600.00\n\
    VAULT CASH                550.00\n\
    DRAWER CASH               450.00\n\
    OPENING CASH             1000.00\n\
    CASH ENTRIES                0.00\n\
    DIFFERENCES                 0.00\n";

/// The listing of the policy.
pub const LISTING: &str = "POLICY LINES        96\n\
    USER    1 O- Olga                \n\
    USER    2 -- Carl                \n\
    USER    3 -- Cora                \n\
    USER    7 -- Tess                \n\
    USER    8 -- Tom                 \n\
    USER    9 -- Sue                 \n\
    CERTIFIER    2 post       \n\
    CERTIFIER    2 transfer   \n\
    CERTIFIER    2 correct    \n\
    CERTIFIER    2 drawer-on  \n\
    CERTIFIER    2 drawer-off \n\
    CERTIFIER    2 move-cash  \n\
    CERTIFIER    2 new-account\n\
    CERTIFIER    2 release    \n\
    CERTIFIER    2 balance    \n\
    CERTIFIER    2 statement  \n\
    CERTIFIER    2 accounts   \n\
    CERTIFIER    2 proof      \n\
    CERTIFIER    2 close-day  \n\
    CERTIFIER    3 post       \n\
    CERTIFIER    3 transfer   \n\
    CERTIFIER    3 correct    \n\
    CERTIFIER    3 drawer-on  \n\
    CERTIFIER    3 drawer-off \n\
    CERTIFIER    3 move-cash  \n\
    CERTIFIER    3 new-account\n\
    CERTIFIER    3 release    \n\
    CERTIFIER    3 balance    \n\
    CERTIFIER    3 statement  \n\
    CERTIFIER    3 accounts   \n\
    CERTIFIER    3 proof      \n\
    CERTIFIER    3 close-day  \n\
    SET         1 account         1    999999\n\
    SET         1 teller          1       999\n\
    SET         1 branch          1        99\n\
    SET         1 history         1        99\n\
    SET         1 drawer          1       999\n\
    SET         1 vault           1        99\n\
    SET         2 account       101       102\n\
    SET         2 account       201       201\n\
    SET         2 teller         11        12\n\
    SET         2 branch          1         1\n\
    SET         2 history         1         1\n\
    SET         2 drawer         11        12\n\
    SET         2 vault           1         1\n\
    SET         3 account       101       101\n\
    SET         3 teller         11        12\n\
    SET         3 branch          1         1\n\
    SET         3 history         1         1\n\
    SET         3 drawer         11        12\n\
    SET         4 account       102       102\n\
    SET         4 teller         11        12\n\
    SET         4 branch          1         1\n\
    SET         4 history         1         1\n\
    SET         4 drawer         11        12\n\
    SET         5 account       101       150\n\
    SET         5 account       102       199\n\
    RELATION post                1 BY    2\n\
    RELATION post                2 BY    2\n\
    RELATION transfer            1 BY    2\n\
    RELATION transfer            2 BY    2\n\
    RELATION transfer            3 BY    2\n\
    RELATION transfer            4 BY    2\n\
    RELATION correct             2 BY    2\n\
    RELATION drawer-on           2 BY    2\n\
    RELATION drawer-off          2 BY    2\n\
    RELATION move-cash           2 BY    2\n\
    RELATION new-account         1 BY    2\n\
    RELATION release             1 BY    2\n\
    RELATION balance             1 BY    2\n\
    RELATION balance             2 BY    2\n\
    RELATION statement           2 BY    2\n\
    RELATION accounts            5 BY    2\n\
    RELATION proof               2 BY    2\n\
    RELATION close-day           2 BY    2\n\
    TRIPLE    7 post                2    999999           0 99999999999\n\
    TRIPLE    7 transfer            3     50000           0 99999999999\n\
    TRIPLE    7 transfer            4     50000           0 99999999999\n\
    TRIPLE    7 correct             2    999999           0 99999999999\n\
    TRIPLE    7 drawer-on           2    100000           0 99999999999\n\
    TRIPLE    7 drawer-off          2         0           0 99999999999\n\
    TRIPLE    7 move-cash           2    100000           0 99999999999\n\
    TRIPLE    7 balance             2         0           0 99999999999\n\
    TRIPLE    7 statement           2         0           0 99999999999\n\
    TRIPLE    7 accounts            5         0           0 99999999999\n\
    TRIPLE    8 post                1      1000           0 99999999999\n\
    TRIPLE    8 post                2     50000           0 99999999999\n\
    TRIPLE    8 transfer            1      1000           0 99999999999\n\
    TRIPLE    8 transfer            2     50000           0 99999999999\n\
    TRIPLE    8 correct             2    999999           0 99999999999\n\
    TRIPLE    8 drawer-on           2    100000           0 99999999999\n\
    TRIPLE    8 drawer-off          2         0           0 99999999999\n\
    TRIPLE    9 new-account         1         0           0 99999999999\n\
    TRIPLE    9 release             1    999999           0 99999999999\n\
    TRIPLE    9 proof               2         0           0 99999999999\n\
    TRIPLE    9 close-day           2         0           0 99999999999\n";
