// The checked numbers of each width.
use checked::types::Checked;

pub type Checked8 = Checked<u8>;

pub type Checked16 = Checked<u16>;

pub type Checked32 = Checked<u32>;
