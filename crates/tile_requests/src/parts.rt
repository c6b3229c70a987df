//! The parts of a response, before there are bytes: a body that lies elsewhere is borrowed.
ghost use Rattle.std.specs.Prelude.{◌≡◌, ◌≤◌, length};
ghost use Rattle.tile_requests.specs.Shown.{body_text, media_type_name};

use arrayvec::ArrayVec;

/// The type of a body.
#[derive(Clone, Copy, PartialEq, Eq)]
pub enum MediaType {
    Ppm,
    Png,
    Xml,
    Json,
    Plain,
}

impl MediaType {
    pub fn name(self) -> &'static [u8]
        ensures text { result.now ≡ media_type_name self }
        ensures short { length result.now ≤ 40 }
    {
        match self {
            MediaType::Ppm => b"image/x-portable-pixmap",
            MediaType::Png => b"image/png",
            MediaType::Xml => b"text/xml",
            MediaType::Json => b"application/json",
            MediaType::Plain => b"text/plain",
        }
    }
}

/// The body of a response.
#[derive(Drop)]
pub enum Body<'a> {
    /// It lies elsewhere.
    Borrowed(&'a [u8]),
    /// It was made for this response.
    Made(Vec<u8>),
}

impl<'a> Body<'a> {
    /// The bytes of the body, wherever they lie.
    pub fn bytes(&self) -> &[u8]
        ensures { result.now ≡ body_text self.now }
    {
        match self {
            Body::Borrowed(bytes) => *bytes,
            Body::Made(bytes) => bytes.as_slice(),
        }
    }
}

/// What the headers of a body tell beside its type and its length.
#[derive(Clone, Copy)]
pub enum BodyHeaders<'a> {
    /// Nothing.
    Plain,
    /// Of a tile.
    Tile(TileHeaders),
    /// Of a tile of several parts: the number of the render of each, in their order.
    Composite(&'a ArrayVec<u64, 8>),
}

/// What the headers of a tile tell.
#[derive(Clone, Copy, PartialEq, Eq)]
pub struct TileHeaders {
    /// Whether a kept tile gave it.
    pub hit: bool,
    /// The number of its render.
    pub number: u64,
}

/// The parts of a response.
#[derive(Drop)]
pub struct LentResponse<'a> {
    pub status: u16,
    /// The type of the body; none where there is no body.
    pub media_type: Option<MediaType>,
    /// What is told beside that, as of a tile.
    pub headers: BodyHeaders<'a>,
    pub body: Body<'a>,
}
