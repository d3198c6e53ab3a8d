// Cards and their numbers, under the path by which callers of the records know them. They stand in `hub_cards`.
pub use hub_cards::{BackupNumber, Card, CardNumber, MasterNumber, Status};
