//! The messages of the sessions whose objects fail, and their responses.

/// A tile, a truncation of it, and the tile once more.
pub const MESSAGES: &[u8] =
    b"GET /rest/wmts/demo/grey/tiny/0/0/0.ppm HTTP/1.1\r\n\r\nPOST /truncate HTTP/1.1\r\n\
    Content-Length: 57\r\n\r\n{\"layer\":\"demo\",\"grid\":\"tiny\",\"zoomStart\":0,\"zoomStop\":0}GET /rest/wmts/demo/grey/tiny/0/0/0.ppm HTTP/1.1\r\n\
    Connection: close\r\n\r\n";

/// The tile, as the last message of its connection.
pub const LAST_MESSAGE: &[u8] =
    b"GET /rest/wmts/demo/grey/tiny/0/0/0.ppm HTTP/1.1\r\nConnection: close\r\n\
    \r\n";

/// The front of each response with a tile.
pub const TILE_HEAD: &[u8] = b"HTTP/1.1 200 OK\r\nContent-Type: image/x-portable-pixmap\r\n";

/// The tile as the first render shows it.
pub const TILE: &[u8] =
    b"HTTP/1.1 200 OK\r\nContent-Type: image/x-portable-pixmap\r\nContent-Length: 23\r\n\
    geowebcache-cache-result: MISS\r\ntile-render: 1099511627777\r\n\r\nP6\n\
    2 2\n255\n\x7f\x7f\x7f\x07\x07\x07\xe7\xe7\xe7ooo";

/// The same as the last response of a connection, from the cache.
pub const TILE_OLD: &[u8] =
    b"HTTP/1.1 200 OK\r\nContent-Type: image/x-portable-pixmap\r\nContent-Length: 23\r\n\
    geowebcache-cache-result: HIT\r\ntile-render: 1099511627777\r\nConnection: close\r\n\
    \r\nP6\n2 2\n255\n\x7f\x7f\x7f\x07\x07\x07\xe7\xe7\xe7ooo";

/// The tile's response where its render failed.
pub const LOST: &[u8] =
    b"HTTP/1.1 500 Internal Server Error\r\nContent-Type: text/xml\r\nContent-Length: 177\r\n\
    \r\n<?xml version=\"1.0\" encoding=\"UTF-8\"?>\n<ExceptionReport xmlns=\"http://www.opengis.net/ows/1.1\" version=\"1.1.0\">\n\
    <Exception exceptionCode=\"NoApplicableCode\"/>\n</ExceptionReport>\n";

/// The same as the last response of a connection.
pub const LOST_LAST: &[u8] =
    b"HTTP/1.1 500 Internal Server Error\r\nContent-Type: text/xml\r\nContent-Length: 177\r\n\
    Connection: close\r\n\r\n<?xml version=\"1.0\" encoding=\"UTF-8\"?>\n<ExceptionReport xmlns=\"http://www.opengis.net/ows/1.1\" version=\"1.1.0\">\n\
    <Exception exceptionCode=\"NoApplicableCode\"/>\n</ExceptionReport>\n";

/// The truncation's response.
pub const CUT: &[u8] =
    b"HTTP/1.1 200 OK\r\nContent-Type: application/json\r\nContent-Length: 22\r\n\
    \r\n{\"cut\":1099511627778}\n";

/// The truncation's response where the disk failed.
pub const UNCUT: &[u8] = b"HTTP/1.1 500 Internal Server Error\r\nContent-Type: application/json\r\n\
    Content-Length: 17\r\n\r\n{\"fault\":\"disk\"}\n";

/// The tile as the first render behind the truncation shows it.
pub const TILE_AGAIN: &[u8] =
    b"HTTP/1.1 200 OK\r\nContent-Type: image/x-portable-pixmap\r\nContent-Length: 23\r\n\
    geowebcache-cache-result: MISS\r\ntile-render: 1099511627779\r\nConnection: close\r\n\
    \r\nP6\n2 2\n255\n\x8d\x8d\x8d\x15\x15\x15\xf5\xf5\xf5}}}";
