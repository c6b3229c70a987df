//! The texts of `--help`.

/// The help of the program.
pub const HELP: &str = "tile_server: a cache of map tiles (the tile part of OGC WMTS 1.0.0)

tile_server schedule < LINES         runs the lines of a schedule on a cabinet in memory, and writes the answers
tile_server replay < BYTES           serves the bytes as those of one connection on such a cabinet, and writes the responses
tile_server drill NUMBER             runs 4096 lines that the number makes on such a cabinet, and writes a summary
tile_server make                     makes an empty cache, whatever stood in its file
tile_server schedule --kept < LINES  runs the lines on that cache
tile_server replay --kept < BYTES    serves the bytes on that cache
tile_server truncate < COVER         makes one truncation, of the cover, and writes its number
tile_server expire                   drops metatiles until no quota is exceeded, and writes how many
tile_server job < JOB                runs a seed, a reseed or a truncation, and writes how many of its places are done
tile_server job --dry-run < JOB      writes how many places and bytes a job has, and changes nothing
tile_server usage                    writes what is kept, layer by layer, and how many truncations are in force
tile_server list [LAYER]             writes a line for each metatile that is kept, and changes nothing
tile_server check                    tells what a start would refuse and what is misspelt, and changes nothing
tile_server seal [--anew]            writes the sums that kept tiles lack, by what their file has, and changes nothing else
tile_server carry [FOLDER]           takes over the cache of before an edit of the catalogue, or of that folder, as far as both
                                     catalogues paint the same
tile_server serve --port PORT --connections COUNT
                                     serves so many connections at that port over TCP on that cache, and keeps its quotas
tile_server feed make                makes an empty list of the changes that were made on the cache
tile_server feed < CHANGES           makes each numbered truncation once on the cache, and writes what became of each
tile_server compose < LINES          lays tiles of several layers over each other on a cabinet in memory, and writes them
tile_server twin make                makes an empty cache, its marks and an outbox, whatever stood in their files
tile_server twin < EVENTS            runs a leader and a follower over a lossy link, event by event
tile_server lead PORT                sends the outbox to one follower at that port of this machine, until all of it was seen
tile_server follow PORT              makes the changes that a leader at that port of this machine sends, until it ends
tile_server --help                   writes this text
tile_server WORD --help              writes that of one word
tile_server --version                writes the version

It works with these files of the folder in which it is run:
  catalogue.json     layers, grids, styles, limits; where it is absent, the built-in catalogue of one layer, demo
  capabilities.xml   the capabilities document that GetCapabilities answers; where it is absent, one of no bytes
  recipes.json       the recipes of the composites that `serve` serves; where it is absent, it serves none
  source.grid        the cells of which pictures are made; where it is absent, the pictures of a formula
  source.http        the renderer over HTTP that makes the pictures, in place of source.grid
  cache.disk         the cache; `make` makes it, and one program at a time may work on it
  cache.sums         sums of its tiles, by which one that was changed is noticed; where it is absent, none is looked for
  catalogue.*.json   a copy of the catalogue that the cache was made with, for `carry`
  cache.marks        which change of the feed was made last; `feed make` and `twin make` make it
  cache.outbox       the truncations that a leader has for its follower; `twin make` makes it

It ends with a code, and all but the first are told by a line on standard error, with the file and what the system says
of it on a second one, where a file is the cause:
   0  done                                    8  not a cache, catalogue differs KEPT ASKED,
   2  usage: the words are no command            bad record SLOT, openings spent
   3  catalogue KIND FIELD INDEX: its fault,  9  cuts full: the truncation was not made
      renderer KIND FIELD INDEX: that of
      source.http; two sources: it stands
      beside source.grid; bad cells
   4  read fault                             10  out of memory
   5  write fault                            11  stream ..: the connection's bytes broke off
   6  disk fault                             12  too long: a file or the input is above its limit
   7  line N: this line was refused          13  form KIND FIELD: the fault of the cover or
                                                 the job
                                             14  listen fault: the port isn't had, or gives no more
                                             15  recipe KIND FIELD PART: the fault of the recipe
                                                 recipes PLACE KIND FIELD PART: that of the one
                                                 at this place of recipes.json
                                             16  link ..: it broke off, or a change was not made
                                             17  in use: another program works on the file
                                             18  thread fault: the server's threads can't be made

docs/OPERATING.md of its repository has the files, the lines and what to do at each fault; docs/PROMISES.md what is proved.
";

/// The help of one word.
struct WordHelp {
    word: &'static str,
    text: &'static str,
}

const SCHEDULE: &str = "tile_server schedule < LINES
tile_server schedule --kept < LINES

Runs the lines of a schedule, each an actor, a verb and a target as `0 GET /rest/wmts/demo/grey/tiny/0/0/0.ppm`, on a cabinet in
memory, or with --kept on the cache of cache.disk, and writes the answer to each line. The verbs are GET, ASK, FORCE, STEP, TRUNCATE
and EXPIRE. A line that is refused ends it with `line N`; the lines before it were run and answered.
";

const REPLAY: &str = "tile_server replay < BYTES
tile_server replay --kept < BYTES

Serves the bytes as those of one connection of HTTP/1.1, on a cabinet in memory, or with --kept on the cache of cache.disk, and writes
the responses.
";

const DRILL: &str = "tile_server drill NUMBER

Runs 4096 lines that the number of 1 to 9 digits makes, on a cabinet in memory, and writes a summary and a digest of the answers: the
same for each program that keeps the rules.
";

const MAKE: &str = "tile_server make

Makes an empty cache in cache.disk, with cache.sums beside it, for the catalogue of this folder, and writes `made`. It asks nothing:
a cache that stood there is lost.
";

const TRUNCATE: &str = "tile_server truncate < COVER

Makes one truncation, of a cover as {\"layer\":\"demo\",\"grid\":\"tiny\",\"zoomStart\":0,\"zoomStop\":0}, and writes `cut NUMBER`. A tile that
is asked for afterwards is rendered anew. While a server works on the cache, POST the cover to its path /truncate.
";

const EXPIRE: &str = "tile_server expire

Drops metatiles until no quota is exceeded, in the order of the catalogue's policy, and writes `dropped COUNT`.
";

const USAGE: &str = "tile_server usage

Opens the cache and writes what is kept, layer by layer, in metatiles and bytes, and how many truncations are in force.
";

const JOB: &str = "tile_server job < JOB
tile_server job --dry-run < JOB

Runs a seed, a reseed or a truncation, place by place, and writes `job TYPE places N done N failed N`. A job is a cover with `type` and
`threads`. How many of those done were rendered and could not be kept is told on standard error; where that is a terminal it tells every
second how far it is. With --dry-run it writes `places N bytes N`, how many metatiles the job would visit and how many bytes they take,
and opens no cache.
";

const LIST: &str = "tile_server list
tile_server list LAYER

Writes a line for each metatile that is kept, of all layers or of one, in the order of last use: layer, style, the values of its
dimensions, grid, matrix, row and column of its first tile, number of the render, moment, uses and bytes. It opens no cache and changes
nothing, so it takes no number of an opening.
";

const CHECK: &str = "tile_server check

Reads the files of this folder as a start would, and tells what it would refuse. It warns of members of the catalogue that nobody knows,
which are mostly misspelt ones, and of quotas that are never exceeded. A source.grid that no render could read is told as `bad cells`, with
code 3. It changes nothing.
";

const SEAL: &str = "tile_server seal
tile_server seal --anew

Reads each kept tile of cache.disk and writes its sum into cache.sums where none is there, and writes `sealed N of N, fitted N, unfit N,
unread N`. It believes what it reads. A sum that is there and is another one stays, or with --anew is written anew. No tile is changed, and
no number of an opening is taken.
";

const CARRY: &str = "tile_server carry
tile_server carry FOLDER

Makes a cache for the catalogue of this folder with all that is kept in its cache, which an older catalogue made, or in that of FOLDER, and
that this catalogue paints the same: the metatiles under their numbers, and the truncations in force. It knows the older catalogue by the
copy that lies beside the cache. The cache of FOLDER is only read; that of this folder is replaced once the new one is whole.
";

const SERVE: &str = "tile_server serve --port PORT --connections COUNT

Serves so many connections over HTTP/1.1 at that port of all addresses, on the cache of cache.disk, keeps its quotas, runs the jobs that
are posted, and ends once the last connection has ended. PORT is 1 to 65535 and COUNT 1 to 1000000. It asks nobody for a name: put a
proxy before it. Faults of the disk and of the renderer are told on standard error. The recipes of recipes.json are served at
/composites/NAME/Z/ROW/COL.ppm and .png.
";

const FEED: &str = "tile_server feed make
tile_server feed < CHANGES

Makes numbered truncations, a line each with a number and a cover, each once and in order, however often they come, and writes what
became of each. `feed make` begins a new list of what was made.
";

const COMPOSE: &str = "tile_server compose < LINES

Reads a recipe in the first line, and lays the tiles of its layers over each other at each place that a further line names.
";

const TWIN: &str = "tile_server twin make
tile_server twin < EVENTS

Runs a leader and a follower over a link that loses, repeats and reorders what goes over it, event by event.
";

const LEAD: &str = "tile_server lead PORT

Sends the truncations of cache.outbox to one follower at that port of this machine, until it has acknowledged all.
";

const FOLLOW: &str = "tile_server follow PORT

Makes the truncations that a leader at that port of this machine sends, each once and in order, until it ends.
";

/// The help of each word.
const WORDS: [WordHelp; 18] = [
    WordHelp {
        word: "schedule",
        text: SCHEDULE,
    },
    WordHelp {
        word: "replay",
        text: REPLAY,
    },
    WordHelp {
        word: "drill",
        text: DRILL,
    },
    WordHelp {
        word: "make",
        text: MAKE,
    },
    WordHelp {
        word: "truncate",
        text: TRUNCATE,
    },
    WordHelp {
        word: "expire",
        text: EXPIRE,
    },
    WordHelp {
        word: "usage",
        text: USAGE,
    },
    WordHelp {
        word: "job",
        text: JOB,
    },
    WordHelp {
        word: "list",
        text: LIST,
    },
    WordHelp {
        word: "check",
        text: CHECK,
    },
    WordHelp {
        word: "seal",
        text: SEAL,
    },
    WordHelp {
        word: "carry",
        text: CARRY,
    },
    WordHelp {
        word: "serve",
        text: SERVE,
    },
    WordHelp {
        word: "feed",
        text: FEED,
    },
    WordHelp {
        word: "compose",
        text: COMPOSE,
    },
    WordHelp {
        word: "twin",
        text: TWIN,
    },
    WordHelp {
        word: "lead",
        text: LEAD,
    },
    WordHelp {
        word: "follow",
        text: FOLLOW,
    },
];

/// The help of a word, if it is one.
pub fn help_of(word: &[u8]) -> Option<&'static str> {
    for help in &WORDS {
        if help.word.as_bytes() == word {
            return Some(help.text);
        }
    }
    None
}
