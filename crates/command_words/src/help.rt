//! What the program says of itself.

/// The version of the program.
pub const VERSION: &str = "0.19";

/// What the commands and their options are.
pub const HELP: &str = "\
cse serves a oneM2M CSE.

usage: cse COMMAND [OPTION VALUE]..

commands
  http           serves standard input and output as one HTTP connection
  serve          serves connections at an address, over HTTP or WebSocket
  replay         answers the lines of standard input, a request in JSON each
  twin           compares two CSEs that are prepared by standard input
  gen NUMBER     makes 1 to 100000 requests of its own and counts the answers
  snapshot FILE  makes the journal in a file short
  help           says this, as --help does
  --version      says the version

options of http, serve, replay, twin and snapshot, each at most once
  --id NAME      the CSE-ID without its slash; id-in if not said
  --base NAME    the name of the CSEBase; cse-in if not said
  --sp NAME      the service provider; sp.example if not said
  --admin NAME   the administrator, who may do everything on the CSEBase; CAdmin
                 if not said
  --type NUMBER  the CSE type: 1 for an infrastructure node, 2 for a middle
                 node, 3 for an application service node; 1 if not said

options of serve
  --listen ADDRESS  the address and port to listen at; 127.0.0.1:8080 if not
                    said, which this machine alone reaches
  --accept NUMBER   end after so many connections: 1 to 1000000000; without
                    end if not said
  --workers NUMBER  how many connections are served at a time: 1 to 4096; 256
                    if not said
  --log WHAT        what is logged on standard error: requests, figures,
                    faults or nothing; faults if not said
  --bind PROTOCOL   the protocol of every connection: http, or ws for
                    WebSocket; http if not said

options of http and serve
  --later ANSWER    whether requests that ask for it are answered later: yes or
                    no; no if not said
  --journal FILE    keep each change in this file, which is made where there is
                    none; nothing is kept if not said; may stand before the
                    command too

A value stands behind its option in a word of its own, which begins with no
dash, or behind an equals sign: --id NAME or --id=NAME.

The program ends with 0 when its work is done, 1 at a faulty command line, 2 at
a bad line of replay or twin, 3 when reading failed or the address or the
journal can't be opened, 4 when writing failed, 5 when memory ran out, and 6
when the input is no HTTP or the file is no journal of this CSE.
";
