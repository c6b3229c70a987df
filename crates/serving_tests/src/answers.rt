//! What clients ask for, and what a server over a fresh cache of the built-in catalogue answers to it.

/// Asks for the one tile at zoom 0.
pub const WHOLE: &[u8] =
    b"GET /wmts?service=WMTS&request=GetTile&version=1.0.0&layer=demo&style=grey\
    &format=image/x-portable-pixmap&TileMatrixSet=tiny&TileMatrix=0&TileRow=0&TileCol=0 HTTP/1.1\r\n\
    Connection: close\r\n\r\n";

/// That tile, rendered first.
pub const WHOLE_MISSED: &[u8] =
    b"HTTP/1.1 200 OK\r\nContent-Type: image/x-portable-pixmap\r\nContent-Length: 23\r\n\
    geowebcache-cache-result: MISS\r\ntile-render: 1099511627777\r\nConnection: close\r\n\r\n\
    P6\n2 2\n255\n\x7f\x7f\x7f\x07\x07\x07\xe7\xe7\xe7\x6f\x6f\x6f";

/// That tile, kept from the first render.
pub const WHOLE_HIT: &[u8] =
    b"HTTP/1.1 200 OK\r\nContent-Type: image/x-portable-pixmap\r\nContent-Length: 23\r\n\
    geowebcache-cache-result: HIT\r\ntile-render: 1099511627777\r\nConnection: close\r\n\r\n\
    P6\n2 2\n255\n\x7f\x7f\x7f\x07\x07\x07\xe7\xe7\xe7\x6f\x6f\x6f";

/// Asks for the first tile at zoom 1.
pub const CORNER: &[u8] =
    b"GET /rest/wmts/demo/grey/tiny/1/0/0.ppm HTTP/1.1\r\nConnection: close\r\n\r\n";

/// That tile, rendered first.
pub const CORNER_MISSED: &[u8] =
    b"HTTP/1.1 200 OK\r\nContent-Type: image/x-portable-pixmap\r\nContent-Length: 23\r\n\
    geowebcache-cache-result: MISS\r\ntile-render: 1099511627777\r\nConnection: close\r\n\r\n\
    P6\n2 2\n255\n\x43\x43\x43\x87\x87\x87\x77\x77\x77\xbb\xbb\xbb";

/// Asks for the tile on its right.
pub const RIGHT: &[u8] =
    b"GET /rest/wmts/demo/grey/tiny/1/0/1.ppm HTTP/1.1\r\nConnection: close\r\n\r\n";

/// That tile, rendered second.
pub const RIGHT_MISSED: &[u8] =
    b"HTTP/1.1 200 OK\r\nContent-Type: image/x-portable-pixmap\r\nContent-Length: 23\r\n\
    geowebcache-cache-result: MISS\r\ntile-render: 1099511627778\r\nConnection: close\r\n\r\n\
    P6\n2 2\n255\n\xd2\xd2\xd2\x16\x16\x16\x06\x06\x06\x4a\x4a\x4a";

/// The first tile at zoom 1, kept from the first render.
pub const CORNER_HIT: &[u8] =
    b"HTTP/1.1 200 OK\r\nContent-Type: image/x-portable-pixmap\r\nContent-Length: 23\r\n\
    geowebcache-cache-result: HIT\r\ntile-render: 1099511627777\r\nConnection: close\r\n\r\n\
    P6\n2 2\n255\n\x43\x43\x43\x87\x87\x87\x77\x77\x77\xbb\xbb\xbb";

/// Submits a job that renders the four tiles at zoom 1.
pub const JOB: &[u8] = b"POST /jobs HTTP/1.1\r\nContent-Length: 71\r\nConnection: close\r\n\r\n\
    {\"layer\":\"demo\",\"grid\":\"tiny\",\"zoomStart\":1,\"zoomStop\":1,\"type\":\"seed\"}";

/// The number of the first job.
pub const JOB_SUBMITTED: &[u8] =
    b"HTTP/1.1 200 OK\r\nContent-Type: application/json\r\nContent-Length: 10\r\nConnection: close\r\n\r\n\
    {\"job\":1}\n";
