//! What the program says of itself.

use std::alloc::{AllocError, Global};
use wb_table::policies_help;

pub const ABOUT: &str = "A write-back block cache over three files.";

/// What a table and a script are, for both subcommands. `AllocError` where there is no memory for it.
pub fn texts(alloc: Global) -> Result<String, AllocError> {
    let policies = policies_help!();
    format!(in alloc; "{TABLES}{policies}{SCRIPTS}")
}

/// What a table is, up to its policy.
const TABLES: &str = "\
TABLE is one argument, words parted by spaces:
  cache <metadata> <cache> <origin> <block size> <features> <policy> <keys>
Three files that are there, and sectors of 512 bytes in a block: 64 to 2097152,
a multiple of 64. Cache and origin have whole blocks, 1048575 and 1048576 at
most. The metadata have 2 sectors and 2 for each node of a tree over the cache
blocks, 32 a node: 4 sectors serve 32 cache blocks.
  features  how many words follow, and these in any order: 0 to 2, of which one
          may be a mode and one metadata2
          writeback     the mode where none is named
          writethrough  writes reach the origin, too, before they are answered
          passthrough   all goes to the origin, and what is written leaves the
                        cache, which has to be clean
          metadata2     metadata of version 2: dirty bits have a tree of their
                        own, and each of its nodes, of 2048 cache blocks a leaf,
                        a sector more. Metadata of version 1 are made of it as
                        they are opened; those that are of it are opened without
                        it, too, and stay so
";

/// What a script is.
const SCRIPTS: &str = "
A script, one answer a line, is read from standard input:
  w S N hh    fill N sectors from S on with the byte hh: prints 'ok'
  wf S N hh   the same, and then flush
  r S N       read them: prints '<sector> <hh>' or '<sector> mixed' for each
  tw, tr      the same over sectors of one block, without waiting
  work        carry out an order of the policy, if any: prints which, or 'idle'
  settle      tell the policy of the accesses so far: prints 'ok'
  tick        let it order write-backs, and flush: prints 'ok'
  status      tell how the cache is, on a line as the kernel's dm-cache does
  flush       make all that was written durable: prints 'ok'
  message M   give the cache a setting or, in passthrough, take blocks out of it:
              migration_threshold N, promote_min N, or invalidate_cblocks B E-F ..
  suspend     the same, and leave the cache clean; behind it only status serves
  @K LINE     one of w, wf, r, tw, tr, flush, settle by client K, 1 to 8, beside
              the others and in order there; what it prints comes at a join, a
              line led by '@K '
  join        wait for these clients, and print what they answered; the end and
              suspend do so first
  # ..        nothing; empty lines too
What is refused prints 'refused <number> <Name>'. What was written is durable
only after a flush. Status: 0 all was answered, 1 something was refused, 2 the
arguments, 3 a device failed or a file is held, 4 a stream failed. Of the first
failure of each device standard error tells at once.

To stop it in order, end the script after 'flush'. The end flushes nothing, and
a signal ends it at once: what was not flushed may be lost then. All three files
are locked as long as it runs, against programs that lock them too.

Example:
  truncate -s 2048 m; truncate -s 131072 c; truncate -s 327680 o
  wbcache format 'cache m c o 64 0 tinylfu 0'
  echo 'w 0 1 11' | wbcache run 'cache m c o 64 0 tinylfu 0'";

/// What a replay is.
pub const REPLAYS: &str = "\
A replay runs a cache over three devices in memory, one atomic step at a time.
It is read from standard input, and its first line is
  setup <mode> <block> <cache blocks> <origin blocks> <metadata sectors>
with sectors in a block, and sectors of 512 bytes; metadata2 behind it asks for
metadata of version 2. The mode is writeback or writethrough; in passthrough no
opening starts. The other lines:
  start A r S N, start A w S N hh, start A flush   give actor A, 0 to 63, a task
  start A promote B C   copy block B into the cache's block C and map it there
  start A demote B      copy block B home where it is dirty, and unmap it
  start A clean B       copy block B home where it is dirty
  start A replace V X   demote block V, to be followed by block X in its place:
                once A has done that, its next flush, and then promote X C
                These four are refused as busy where they may not start, kept
                where they are busy later, and then started again by the same line
  start A suspend       make all durable, store what is dirty, and end this life:
                refused as busy where anybody has a task; nothing starts before
                its answer, and only an opening is done behind it
  step A [M]    M of its steps, 1 by default, fewer where it answers
  end A         its steps up to its answer
  fault A old, fault A new   its next step, one on a device, fails, and what it
                writes or syncs is lost or lands
  stop old, stop new [m:S:K] [c:S:K] [o:S:K] ..   power is lost: each sector
                keeps its durable content or its newest, one that is named the
                content K of its list, from 0 on
  open <mode>   open the cache: prints 'open <generation> <mapped> <dirty>'
  start A open <mode>   the same as a task of actor A, to be stepped
                Behind the mode, metadata2 asks for metadata of version 2
  view S N      what it shows: prints '<sector> <hh>' or '<sector> mixed'
  # ..          nothing; empty lines too
An answer prints 'A done', or 'A refused <number> <Name>'; a read prints
'A <sector> <hh>' for each sector first. What does not apply prints 'skipped'.
Status: 0 all was played, 1 the setup was refused or a line is none of a replay,
2 the arguments, 4 a stream failed.";
