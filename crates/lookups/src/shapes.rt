// What a way is, taken out of the tables.
use station::Setting;

#[derive(Clone, Copy)]
pub struct Shape<'a> {
    pub segment: usize,
    pub from: usize,
    pub to: usize,
    pub settings: &'a [Setting],
}
