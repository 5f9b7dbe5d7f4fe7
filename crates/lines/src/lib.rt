// Words and numbers put into a lent line of text. The programs make their lines with it; it writes nothing out.
#![tactic(auto)]

pub mod put;
