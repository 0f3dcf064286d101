//! The texts, each in its one place.

/// `help`: a line for each command.
pub const ALL: &str = "union_cat, a union catalogue for MARC 21 records

pass OUT CODE=FILE                   take one file alone, and write its records
run JOURNAL OUT REPORT CODE=FILE ..  load files; write the export and the report
load JOURNAL CODE=FILE ..            load files into the journal
browse JOURNAL OUT REPORT PAGES CODE=FILE ..  as run, and pages of headings
export JOURNAL OUT [CODE]            write the journal's records into OUT
report JOURNAL OUT                   write the report on the headings into OUT
make SEED COUNT OUT                  write made-up records, to try the program
verify JOURNAL [POINT | N HEX]       tell what the journal has; write nothing
matches JOURNAL OUT                  write which records share a number
holdings JOURNAL OUT REST CODE=FILE  write the records with a file's holdings
headings JOURNAL KIND FROM MOST OUT  write the headings of one kind from FROM on
worklist JOURNAL LIST PAGE [CODE]    write the headings to work on, and a page
migrate OLD NEW                      bring a journal of version 1 into a new one
salvage JOURNAL NEW                  bring what is sound of a damaged journal
                                     into a new one
checkpoint JOURNAL POINT             keep the journal's catalogue behind POINT
quick JOURNAL POINT OUT [REPORT]     export from POINT's last checkpoint on
reading export JOURNAL OUT [CODE]    the same without holding JOURNAL, even
                                     while a load has it; also report, matches,
                                     holdings, headings and worklist
refused OUT CODE=FILE                write the pieces of a file that are refused
split N PREFIX CODE=FILE ..          cut files into N parts of a catalogue
join OUT EXPORT ..                   write the parts' exports as the whole's
totals REPORT0 REPORT ..             tell the last line of the whole's report
large COMMAND ..                     any of these but make, for a catalogue of
                                     more than 1048576 records or 512 MiB
help [COMMAND]                       tell this, or how that command is used
version                              tell the program's version
";

/// The page of `pass`.
pub const PASS: &str = "union_cat pass OUT CODE=FILE

Takes one file through an empty catalogue, without a journal, and writes its
records with their headings linked.
CODE is the code of the library that sent FILE. It stands in the keys of the
records that have no 003.
Writes: OUT; on the console a line for each refused record, and one for the
file.
Status: 0 all was taken; 1 some records were refused; 2 wrong words; 3 FILE
couldn't be read; 4 OUT or the console couldn't be written; 7 there are more
records than a catalogue takes; 8 memory ran out.
Example: union_cat pass out.mrc ULIB=new.mrc
";

/// The page of `run`.
pub const RUN: &str = "union_cat run JOURNAL OUT REPORT CODE=FILE ..

Loads 1 to 64 files into the journal, side by side; then writes the export of
all its records and the report.
CODE is the code of the library that sent FILE. It stands in the keys of the
records that have no 003.
Writes: JOURNAL, which is made if it isn't there; OUT; REPORT; on the console a
line for each refused record, and one for each file.
Status: 0 all was taken; 1 some records were refused; 2 wrong words; 3 a file
couldn't be read; 4 OUT, REPORT or the console couldn't be written; 5 the
journal's disk failed; 6 it is no journal; 7 it takes no more; 8 memory ran out;
9 it is of version 1.
Example: union_cat run union.jnl all.out union.rep ALIB=a.mrc BLIB=b.mrc
";

/// The page of `load`.
pub const LOAD: &str = "union_cat load JOURNAL CODE=FILE ..

Loads 1 to 64 files into the journal, side by side.
CODE is the code of the library that sent FILE. It stands in the keys of the
records that have no 003.
Writes: JOURNAL, which is made if it isn't there; on the console a line for each
refused record, and one for each file.
Status: 0 all was taken; 1 some records were refused; 2 wrong words; 3 a file
couldn't be read; 4 the console couldn't be written; 5 the journal's disk
failed; 6 it is no journal; 7 it takes no more; 8 memory ran out; 9 it is of
version 1.
Example: union_cat load union.jnl ALIB=a.mrc BLIB=b.mrc

A CODE is 1 to 16 signs of ASCII, without blanks and parentheses. A refused
record's line has its file, its number in it, the place of its first byte, and
why:
  1  it is longer than 99,999 bytes
  2  the file ends within it, or is no MARC in ISO 2709
  3  the length in its leader is wrong
  4  a leader byte or the base address is wrong
  5  a directory entry is wrong
  6  a field doesn't fit its directory entry
  7  its coding is neither a blank (MARC-8) nor a (UTF-8)
  8  a text is malformed
  9  it is of another type, as holdings
  10 it has no control number that can be a key's
  11 its 003 can't be a key's code
  12 an authority has no heading
  13 an authority's heading or see-from heading is longer than 512 bytes
  14 it is too long, or a field leaves no room for a longer heading
  15 a text in MARC-8 uses another set than the Latin ones
  17 in holdings: it has no 004 that can be a key's
A journal takes 1,048,576 records, or 536,870,912 bytes, all that ever came; and
with large before load 134,217,728 records, or 137,438,953,472 bytes.
A file is read up to its first 1 GiB, and with large 1 TiB.
";

/// The page of `browse`.
pub const BROWSE: &str = "union_cat browse JOURNAL OUT REPORT PAGES CODE=FILE ..

Does what run does; and while the files are loaded, a reader pages through the
established headings.
A page is a line AT with the number of the journal's records, all that ever
came, and a line for each of its first 20 headings: the key, and the heading as
it is compared. The last page is of all that the journal has in the end; how
many stand before it is open.
Writes: what run does; PAGES.
Status: as run; 4 PAGES couldn't be written; 8 memory ran out.
Example: union_cat browse union.jnl all.out union.rep union.pag ALIB=a.mrc
";

/// The page of `export`.
pub const EXPORT: &str = "union_cat export JOURNAL OUT
union_cat export JOURNAL OUT CODE

Writes the journal's records in the order of their keys: all, or those with CODE
in their key.
Writes: OUT. JOURNAL is only put in order, and made if it isn't there.
Status: 0 all was written; 2 wrong words; 4 OUT couldn't be written; 5 the
journal's disk failed; 6 it is no journal; 7 it has more than a catalogue takes;
8 memory ran out.
Example: union_cat export union.jnl a.out ALIB
";

/// The page of `report`.
pub const REPORT: &str = "union_cat report JOURNAL OUT

Writes the report on the journal's headings: which are ambiguous, shared,
crossed, or await a successor.
Writes: OUT. JOURNAL is only put in order, and made if it isn't there.
Status: 0 all was written; 2 wrong words; 4 OUT couldn't be written; 5 the
journal's disk failed; 6 it is no journal; 7 it has more than a catalogue takes;
8 memory ran out.
Example: union_cat report union.jnl union.rep
";

/// The page of `make`.
pub const MAKE: &str = "union_cat make SEED COUNT OUT

Writes COUNT made-up records, at most 1048576, to try the program with. The same
SEED gives the same records.
Writes: OUT; on the console one line, with what a load of them counts.
Status: 0 all was written; 2 wrong words; 4 OUT or the console couldn't be
written; 8 memory ran out.
Example: union_cat make 1 1000 tried.mrc
";

/// The page of `verify`.
pub const VERIFY: &str = "union_cat verify JOURNAL
union_cat verify JOURNAL POINT
union_cat verify JOURNAL N HEX

Reads the journal from its first byte to its last, as an input.
Writes: no file; on the console a line with its version and how many entries,
frames and bytes it has, one with the SHA-256 of its bytes but the last that
counts, and where bytes stand behind that, as a crash may leave them, a line
with its place, and one where they are more than a crash leaves: then no command
cuts them off.
With POINT it tells whether POINT's last checkpoint is one of this journal: its
entries are taken anew, and what they make is compared with the checkpoint. The
console has the line of quick.
With N and HEX, from a line 'sha256 HEX of N entries' that verify told once, it
tells whether HEX still is the SHA-256 of the bytes of the first N entries. The
console has that line again.
Status: 0 it is a journal, and POINT or HEX is its own; 2 wrong words; 3 a file
isn't there, or couldn't be read; 4 the console couldn't be written; 6 JOURNAL
is no journal, or POINT has no checkpoints, but something else; 8 memory ran
out; with POINT also 7 JOURNAL has more than a catalogue takes, 9 POINT is of
version 1, 10 POINT has no whole checkpoint, or one of another history; with HEX
also 10 its first N entries have another SHA-256, or no frame ends behind them.
Example: union_cat verify union.jnl
";

/// The page of `matches`.
pub const MATCHES: &str = "union_cat matches JOURNAL OUT

Writes which of the journal's bibliographic records have an ISBN or an LCCN in
common.
Writes: OUT. JOURNAL is only put in order, and made if it isn't there.
Status: 0 all was written; 2 wrong words; 4 OUT couldn't be written; 5 the
journal's disk failed; 6 it is no journal; 7 it has more than a catalogue takes;
8 memory ran out.
Example: union_cat matches union.jnl same.txt
";

/// The page of `holdings`.
pub const HOLDINGS: &str = "union_cat holdings JOURNAL OUT REST CODE=FILE
union_cat holdings JOURNAL OUT REST CODE=FILE LIB

Writes the journal's records into OUT, each bibliographic one with its holdings
in FILE behind it: all, or those with LIB in their key. Holdings whose record
isn't in the journal go to REST, which can be given as a FILE under the same
CODE later. It is one FILE a command, and OUT and REST have only its holdings.
CODE is the code of the library that sent FILE. It stands in the keys of the
holdings that have no 003, and of their records.
Writes: OUT; REST; on the console a line for each refused record, and one for
FILE. JOURNAL is only put in order, and made if it isn't there.
Status: 0 all was taken; 1 some records were refused; 2 wrong words; 3 FILE
couldn't be read; 4 OUT, REST or the console couldn't be written; 5 the
journal's disk failed; 6 it is no journal; 7 it has more than a catalogue takes;
8 memory ran out.
Example: union_cat holdings union.jnl all.out late.mrc ALIB=a_holdings.mrc
";

/// The page of `headings`.
pub const HEADINGS: &str = "union_cat headings JOURNAL KIND FROM MOST OUT

Writes the journal's headings of one kind, in the order in which headings are
compared, from FROM on and MOST at most, 1 to 100000: established headings, and
the see-from headings that lead to them, each in its own place.
KIND is personal, corporate, meeting, title, chronological, topical, geographic
or genre. FROM is a heading as one types it: what has no code is $a, and other
parts want theirs, as in 'Twain, Mark,$d1835'. Capitals don't count, nor does
punctuation but # & + @ and the first comma; for a $ within a heading type a
blank. An empty FROM begins with the first.
Writes: OUT: a line for each, with a tabulator between its columns: the heading
as it stands, its key, and how many headings are linked to it; or the see-from
heading, and an arrow to the key. JOURNAL is only put in order, and made if it
isn't there.
Status: 0 all was written; 2 wrong words; 4 OUT couldn't be written; 5 the
journal's disk failed; 6 it is no journal; 7 it has more than a catalogue takes;
8 memory ran out.
Example: union_cat headings union.jnl personal 'twain, mark' 20 near.txt
";

/// The page of `worklist`.
pub const WORKLIST: &str = "union_cat worklist JOURNAL LIST PAGE
union_cat worklist JOURNAL LIST PAGE CODE

Writes what a cataloguer works from. LIST is a table (CSV) with a line for each
heading that isn't linked, those that stand most often first: the heading, its
record and title, the authorities that it could be linked to, and why it isn't.
With CODE it has the headings of that library's records. PAGE is a page for a
browser, of all records also with CODE: how many headings are linked, by library
and kind, and which loads brought what.
Writes: LIST; PAGE. JOURNAL is only put in order, and made if it isn't there.
Status: 0 all was written; 2 wrong words; 4 LIST or PAGE couldn't be written; 5
the journal's disk failed; 6 it is no journal; 7 it has more than a catalogue
takes; 8 memory ran out.
Example: union_cat worklist union.jnl work.csv work.html ALIB
";

/// The page of `migrate`.
pub const MIGRATE: &str = "union_cat migrate OLD NEW

Brings the history of the journal OLD, of version 1, into the journal NEW, of
version 2. It can be given again after any stop: it goes on where it was.
Writes: NEW, which is made if it isn't there; on the console a line with the
number of OLD's entries. OLD is only put in order, and made if it isn't there.
Status: 0 NEW has all; 2 wrong words; 4 NEW has all, but the console couldn't be
written; 5 a journal's disk failed; 6 one of them is no journal; 7 one has more
than a catalogue takes; 8 memory ran out; 9 OLD isn't of version 1, or NEW is;
10 NEW has another history.
Example: union_cat migrate old.jnl union.jnl
";

/// The page of `salvage`.
pub const SALVAGE: &str = "union_cat salvage JOURNAL NEW

Brings what is sound of the damaged journal JOURNAL into the journal NEW, of
version 2. It can be given again after any stop: it goes on where it was.
Past a wrong header, or a closed gate with two whole frames behind it, it goes
on. Any other damage ends it: nothing tells what stands behind that.
Writes: NEW, which is made if it isn't there; on the console a line with the
number of entries, a line for each damage, and one with how many bytes are left
out. JOURNAL is read as an input.
Status: 0 NEW has what is sound; 2 wrong words; 3 JOURNAL isn't there, or
couldn't be read; 4 NEW has it, but the console couldn't be written; 5 NEW's
disk failed; 6 nothing of JOURNAL is sound, or NEW is no journal; 7 one has more
than a catalogue takes; 8 memory ran out; 9 NEW is of version 1; 10 NEW has
another history.
Example: union_cat salvage broken.jnl union.jnl
";

/// The page of `checkpoint`.
pub const CHECKPOINT: &str = "union_cat checkpoint JOURNAL POINT

Puts a checkpoint of the journal's catalogue behind those that POINT has, for
quick. Nothing shortens POINT: a new one is made and moved over the old.
Writes: POINT, which is made if it isn't there; on the console a line with the
number of the journal's entries. JOURNAL is only put in order, and made if it
isn't there.
Status: 0 POINT has it; 2 wrong words; 4 POINT has it, but the console couldn't
be written; 5 the disk of JOURNAL or POINT failed; 6 JOURNAL is no journal, or
POINT has no checkpoints, but something else; 7 JOURNAL has more than a
catalogue takes; 8 memory ran out; 9 POINT is of version 1.
Example: union_cat checkpoint union.jnl union.pnt
";

/// The page of `quick`.
pub const QUICK: &str = "union_cat quick JOURNAL POINT OUT
union_cat quick JOURNAL POINT OUT REPORT

Writes the journal's records in the order of their keys, as export does, but
begins with POINT's last checkpoint and takes only the entries behind it. With
none that fits it takes all. POINT must be JOURNAL's own: verify checks that.
With REPORT it writes the report too, as report does; that is the name of a
file, and no CODE.
Writes: OUT; REPORT; on the console a line with the number of entries that the
checkpoint spared, and that of all. JOURNAL is only put in order, POINT is only
read; each is made, empty, if it isn't there.
Status: 0 all was written; 2 wrong words; 4 OUT, REPORT or the console couldn't
be written; 5 the disk of JOURNAL or POINT failed; 6 JOURNAL is no journal, or
POINT has no checkpoints, but something else; 7 JOURNAL has more than a
catalogue takes; 8 memory ran out; 9 POINT is of version 1.
Example: union_cat quick union.jnl union.pnt all.out
";

/// The page of `reading`.
pub const READING: &str = "union_cat reading export JOURNAL OUT
union_cat reading export JOURNAL OUT CODE
union_cat reading report JOURNAL OUT
union_cat reading matches JOURNAL OUT
union_cat reading holdings JOURNAL OUT REST CODE=FILE [LIB]
union_cat reading headings JOURNAL KIND FROM MOST OUT
union_cat reading worklist JOURNAL LIST PAGE [CODE]

Writes what the command behind `reading` writes, but reads JOURNAL as an input:
it isn't held, made or put in order, so that it can be on a read-only disk, or
be loaded into meanwhile. OUT is that of the history of the bytes that were
read. It may have entries that a crash would still take away.
The journal's bytes are kept in memory too.
Writes: the outputs of that command. JOURNAL is only read.
Status: as that command has it, but 3 where JOURNAL isn't there or couldn't be
read, and 6 also where it was read while it was cut.
Example: union_cat reading export union.jnl all.out
";

/// The page of `refused`.
pub const REFUSED: &str = "union_cat refused OUT CODE=FILE

Takes one file as pass does, and writes the refused pieces, each as it stands in
FILE: from its first byte through its record terminator, or to the end of FILE.
CODE is the code of the library that sent FILE. It stands in the keys of the
records that have no 003.
Writes: OUT; on the console the lines of pass. FILE is kept in memory.
Status: 0 none was refused, and OUT is empty; 1 some were; 2 wrong words; 3 FILE
couldn't be read; 4 OUT or the console couldn't be written; 7 there are more
records than a catalogue takes; 8 memory ran out.
Example: union_cat refused back.mrc ULIB=new.mrc
";

/// The page of `split`.
pub const SPLIT: &str = "union_cat split N PREFIX CODE=FILE ..

Cuts 1 to 64 files into N parts of a catalogue, 2 to 1024, by the keys of their
bibliographic records, so that each part can be loaded by itself.
CODE is the code of the library that sent FILE. It stands in the keys of the
records that have no 003.
Writes, FILE and PART being numbers from 0: PREFIX.authorities.FILE.mrc with the
authorities of a file, which each part loads first; PREFIX.PART.FILE.mrc with
its records of that part, in their order; PREFIX.parts, which tells where the
parts begin; on the console the lines of pass, for each file. A refused record
is in no part.
A file is read twice, and can't be a pipe. Where one of the outputs is there
already, nothing is written.
Status: 0 all was taken; 1 some records were refused; 2 wrong words; 3 a file
couldn't be read; 4 an output is there already, or one or the console couldn't
be written; 8 memory ran out.
Example: union_cat split 4 big ALIB=a.mrc BLIB=b.mrc
";

/// The page of `join`.
pub const JOIN: &str = "union_cat join OUT EXPORT ..

Writes the exports of the parts of a catalogue, in the order of the parts, as
the export of the whole: the authorities once, then the other records of each.
Writes: OUT, which is untouched where parts differ.
Status: 0 all was written; 2 wrong words; 3 an EXPORT couldn't be read; 4 OUT
couldn't be written; 8 memory ran out; 11 the parts differ: an EXPORT has other
authorities than the first, or a record that doesn't come behind the part before
it; the console tells where.
Example: union_cat join all.out 0.out 1.out 2.out 3.out
";

/// The page of `totals`.
pub const TOTALS: &str = "union_cat totals REPORT0 REPORT ..

Tells the last line of the report on a whole catalogue, of REPORT0, which is the
report on its authorities alone, and of the reports on its parts.
Writes: no file; on the console that line.
Status: 0 it is told; 2 wrong words; 3 a report couldn't be read; 4 the console
couldn't be written; 8 memory ran out; 11 the parts differ: REPORT0 counts more
than authorities, a REPORT counts other ones or less than REPORT0, or a file
doesn't end with such a line; the console tells which.
Example: union_cat totals authorities.rep 0.rep 1.rep 2.rep 3.rep
";

/// The page of `large`.
pub const LARGE: &str = "union_cat large COMMAND ..

Does what COMMAND does, for a catalogue of up to 134,217,728 records and
137,438,953,472 bytes, in place of 1,048,576 and 536,870,912, and with files of
up to 1 TiB each, in place of 1 GiB. COMMAND is any but make, help and version.
A journal that passes 1,048,576 records or 536,870,912 bytes is refused with 7
without large. verify, reading and salvage end with 3 where it has more than
1 GiB; verify of a shorter one needs no large. Put large before each command
over such a journal, and never split it. It has no mark of it.
The catalogue is kept in memory: some 0.42 GB for each 1,000,000 records that
make makes, and 3 GB for those of 1,000 bytes. Some commands take up to 1.7
times what load takes, so copy the journal before a large load.
Writes: what COMMAND writes.
Status: as COMMAND has it.
Example: union_cat large load union.jnl ALIB=a.mrc
";

/// The page of `help`.
pub const HELP: &str = "union_cat help
union_cat help COMMAND
union_cat help statuses

Tells all commands, a line for each, how COMMAND is used, or what each exit
status means. --help and -h alone are the same as help, and behind a command,
but verify, the same as help COMMAND.
Writes: no file.
Status: 0 it is told; 2 wrong words; 4 the console couldn't be written.
Example: union_cat help load
";

/// The page of `version`.
pub const VERSION: &str = "union_cat version

Tells the program's version, and the kit that proved it. --version and -V alone
are the same.
Writes: no file.
Status: 0 it is told; 2 wrong words; 4 the console couldn't be written.
Example: union_cat version
";

/// The page of the exit statuses.
pub const STATUSES: &str = "union_cat help statuses

The exit statuses of all commands:
  0  all was taken, written or told
  1  all but the refused records was taken
  2  the words are no command
  3  a file isn't there, or couldn't be read
  4  an output or the console couldn't be written
  5  the journal couldn't be read or written
  6  the file is no journal, or a damaged one
  7  there are more records than a catalogue takes; large takes more
  8  memory ran out
  9  the journal, POINT or NEW is of version 1; in migrate: OLD isn't
  10 in migrate and salvage: NEW has another history; in verify: POINT or HEX
     isn't JOURNAL's own
  11 in join and totals: the parts differ
Standard error names the file and the cause.
";

/// `version`: the program's version, and the kit that it is proved with. A program can't tell how it was built.
pub const THIS_VERSION: &str = "union_cat 1.0
proved with rattle-kit-13f logic dac8208d650f15bf, where `rt run` or `rt ci` built it
";
