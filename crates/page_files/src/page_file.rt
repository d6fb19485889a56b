use bytes::Bytes;

/// A file of a page.
#[derive(Drop)]
pub struct PageFile {
    /// Its path below the page's folder, as `index.html` and `views/board.js`.
    pub name: String,
    pub bytes: Bytes,
}
