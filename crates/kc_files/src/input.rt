/// A file by its path, with its bytes.
#[derive(Clone, Copy)]
pub struct Input<'a> {
    pub path: &'a str,
    pub bytes: &'a [u8],
}
