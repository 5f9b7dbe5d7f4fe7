// What the entries for hosts share: the definitions of what an entry returns and writes, their laws, and `room::too_short`.
#![tactic(auto)]

pub mod room;
