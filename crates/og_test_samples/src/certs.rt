//! Texts of certificates.

/// Certificates of all conditions of `TWO_ADD`.
pub const TWO_ADD_CERTS: &str =
    "og-cert 1\ncond 1\nsplit 3 2\nclose 1*2 1*5\nclose 1*1 1*5\ncond 2\nsplit 3 2\nclose 1*2 1*5\nclose 1*1 1*5\ncond 3\nsplit 1 2\nsplit 2 2\nclose 1*5 1*6\nclose 1*4 1*6\nsplit 3 2\nclose 1*5 1*6\nclose 1*4 1*6\ncond 4\nsplit 2 2\nclose 1*3 1*l0\nsplit 1 2\nclose 1*3 1*4\nclose 1*3 1*4\ncond 5\nsplit 1 2\nsplit 2 2\nclose 1*5 1*6\nclose 1*4 1*6\nsplit 3 2\nclose 1*5 1*6\nclose 1*4 1*6\ncond 6\nsplit 2 2\nclose 1*3 1*l0\nsplit 1 2\nclose 1*3 1*4\nclose 1*3 1*4\ncond 7\nsplit 1 2\nsplit 4 2\nclose 1*6 1*7\nclose 1*5 1*7\nsplit 2 2\nclose 1*6 1*7\nclose 1*5 1*8\ncond 8\nsplit 1 2\nsplit 4 2\nclose 1*6 1*7\nclose 1*5 1*7\nsplit 2 2\nclose 1*6 1*7\nclose 1*6 1*7\ncond 9\nsplit 1 2\nsplit 4 2\nclose 1*6 1*7\nclose 1*5 1*7\nsplit 2 2\nclose 1*6 1*7\nclose 1*6 1*7\ncond 10\nsplit 1 2\nsplit 4 2\nclose 1*6 1*7\nclose 1*5 1*7\nsplit 2 2\nclose 1*6 1*7\nclose 1*6 1*7\ncond 11\nsplit 1 2\nsplit 2 2\nclose 1*4 1*7\nclose 1*4 1*7\nsplit 3 2\nclose 1*5 1*6\nclose 1*4 1*6\ncond 12\nsplit 3 2\nclose 1*5\nclose 1*5\n";

/// Certificates of all conditions of `ONE_SKIP`.
pub const ONE_SKIP_CERTS: &str =
    "og-cert 1\ncond 1\nclose 1*1\ncond 2\nclose 1*1\ncond 3\nclose 1*1\ncond 4\nclose 1*1\n";

/// In version 2.
pub const ONE_SKIP_CERTS_2: &str =
    "og-cert 2\ncond 1\nclose 1*1\ncond 2\nsame 1\ncond 3\nsame 1\ncond 4\nsame 1\n";

/// Certificates of all conditions of `SKIP_AND_ASSIGN` that are true: all but 6 and 7.
pub const SKIP_AND_ASSIGN_CERTS: &str =
    "og-cert 1\ncond 1\nsplit 3 2\nclose 1*2 1*4\nclose 1*1 1*4\ncond 2\nclose 1*3\ncond 3\nsplit 3 2\nclose 1*2 1*4\nclose 1*1 1*4\ncond 4\nclose 1*1\ncond 5\nsplit 1 2\nclose 1*2\nclose 1*2\ncond 8\nclose 1*3\ncond 9\nclose 1*3\n";
