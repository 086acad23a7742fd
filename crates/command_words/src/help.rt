//! What the commands say of themselves. Where a text names a limit of batches, racks or workers,
//! rows hold the words, and what lies on both sides of the limit; how many modules one switch joins
//! is of the chip, and a row holds the words.

/// What help says of a command.
pub(crate) struct CommandHelp {
    /// What the command is about, in a line.
    pub(crate) about: &'static str,
    /// What its help says first: an example that works in a clone.
    pub(crate) example: &'static str,
    /// What its help says below its options.
    pub(crate) notes: &'static str,
}

/// What help says of `plan`.
pub(crate) const PLAN: CommandHelp = CommandHelp {
    about: "Prints a schedule of a batch: which transfers move in which switch setting",
    example: "Example:\n  ./exchange plan examples/three-transfers.txt",
    notes: "\
FILE is a batch text: the line `batch N`, then N lines of the form
  push I b R c   module I writes its block b into block c of module R
  pull I b R c   module I reads block c of module R into its block b
with modules from 0 to 31 and blocks from 0 to 63, at most 4096 lines.

The answer is the line `settings S`, then S lines `setting t t ..`: the
transfers that move at once, numbered from 0 in the order of their lines. A
transfer uses link 0 of the module I that starts it, and link 3 of the module R
that answers. In one setting each link carries one transfer at most. No schedule
has fewer settings, as the last two lines show:
  busiest link E module M   the link that most transfers use
  named t t ..              all transfers that use it, one in each setting
or the line `busiest none` where there is no transfer.
Two transfers that write one block, which a run refuses, are named on standard
error.

Use --steady where changing the switch takes time. The schedule has as few
settings, and few changes: at most one for each pair of links that share
transfers, and one for each link in use. A change is a setting that joins other
pairs of links than the one before; the first setting is one. `exchange draw`
shows how many changes a schedule has, and how many it needs at least.
--steady and --workers exclude each other.

A file that can't be read is `refused file`. Where FILE is no batch text, the
answer is what is first wrong, line by line:
  refused batch line N   line N, from 1, has another form or no line feed
  refused too many       the first line says more than 4096
  refused no module T    transfer T names a module above 31
  refused no block T     transfer T names a block above 63
  refused count          fewer than N lines follow, or something after them

Status: 0 a schedule was printed, 1 the batch was refused or there was no
memory, 2 the arguments are wrong, 3 the answer couldn't be written.",
};

/// What help says of `check`.
pub(crate) const CHECK: CommandHelp = CommandHelp {
    about: "Judges a schedule of a batch: whether its certificate shows that none is shorter",
    example: "\
Example:
  ./exchange check examples/three-transfers.txt examples/three-transfers.plan.txt",
    notes: "\
BATCH is a batch text and SCHEDULE a schedule text with the certificate part,
in the form that `exchange plan --help` shows. The certificate depends on the
batch alone: for a schedule of your own take the last two lines of
`exchange plan BATCH`.

The answer is the line `shortest S` where the S settings have each transfer
once, none of them has a link twice, and S distinct transfers are named that all
use the link. Then no schedule of the batch has fewer settings.

Else it is the first of these that is wrong. Both files are read first, then
BATCH is looked at, then SCHEDULE, and then what it says:
  refused file                          a file can't be read
  refused ..                            BATCH, as `exchange plan --help` shows
  refused schedule line N               line N of SCHEDULE, from 1
  refused no certificate                SCHEDULE has no certificate part
  refused check unknown T               no transfer T
  refused check repeated T              the settings have T twice
  refused check missing T               no setting has T
  refused check clash S link E module M two of setting S use the link
  refused check wrong link T            T is named and doesn't use the link
  refused check certificate repeats T   T is named twice
  refused check not tight S U           S settings, but U transfers named
With the last two lines of the plan, `not tight` means that U settings are
enough. With others it may only mean that they name too few transfers. Where
the certificate is missing or wrong, the line on standard error says whether
the schedule is valid, and if so how many settings are enough.

Status: 0 it is shortest, 1 it was refused or there was no memory, 2 the
arguments are wrong, 3 the answer couldn't be written.",
};

/// What help says of `draw`.
pub(crate) const DRAW: CommandHelp = CommandHelp {
    about: "Draws a schedule of a batch: a picture in SVG, for a browser",
    example: "\
Example:
  mkdir -p out
  ./exchange draw examples/three-transfers.txt examples/three-transfers.plan.txt > out/three.svg",
    notes: "\
BATCH is a batch text and SCHEDULE a schedule text, with the certificate part or
without it, in the form that `exchange plan --help` shows.

The answer is a picture of the schedule, the text of an SVG file.
Each module that takes part has a row, and each setting a column. After 32
columns the next ones stand below, with all rows again. The upper half of a row
shows the transfers that link 0 of the module starts, the lower half those that
link 3 answers. A cell has the number and the colour of the module at the other
end, and an arrow to the right where words go there, or to the left where they
come from there. Below that it has the number of its transfer. Point at a cell,
and the browser shows the transfer. The half of the busiest link is framed. A
dashed line stands before each setting that changes the switch.

Any schedule of BATCH is drawn. The picture's title says whether its settings are
`the fewest`, or `where F are enough`. It says how often the switch changes, as
`changes C`, and what is shown of that: `the fewest`, `the fewest with so few
settings` or `at least L`. Last comes `certified`, `not certified` or `no
certificate`. With --settings the picture has the columns of settings A to B
alone, counted from 0, both of them:
  ./exchange draw BATCH SCHEDULE --settings 0..31 > first.svg
Common tools draw at most 32767 pixels in height. Where the picture is higher, a
line on standard error says so.

With --prices the answer is no picture, but prices that show how often the switch
has to change:
  settings S shown N   each schedule of BATCH with S settings, as many as SCHEDULE
                       has, changes it N times or more
  prices P P ..        for each length of a step, from 1 on: the prices of link 0
                       of modules 0 to 31, then of link 3. They add up to 65536
                       at most
A step is a run of settings that join the same pairs of links. Where SCHEDULE
hasn't the fewest settings, N is 0 and there are no prices.
examples/check_prices.py checks them. --prices and --settings exclude each other.

Else it is the first of these that is wrong:
  refused file            a file can't be read
  refused settings        A..B isn't two numbers, or A is above B
  refused ..              BATCH, as `exchange plan --help` shows
  refused schedule line N as `exchange check --help` shows
  refused check ..        the same, where SCHEDULE is no schedule of BATCH
  refused no setting K    A..B has K, and SCHEDULE doesn't

Status: 0 a picture was printed, or prices, 1 it was refused or there was no
memory, 2 the arguments are wrong, 3 the answer couldn't be written.",
};

/// What help says of `switch`.
pub(crate) const SWITCH: CommandHelp = CommandHelp {
    about: "Prints a real switch's bytes: what a run of a batch sends over the configuration link",
    example: "Example:\n  ./exchange switch examples/two-pushes.txt",
    notes: "\
BATCH is a batch text, in the form that `exchange plan --help` shows. Its
schedule is that of `exchange plan`, or that of `exchange plan --steady` with
--steady. With --schedule it is that of FILE, any schedule text of BATCH, with
the certificate part or without it. --workers, --steady and --schedule exclude
each other.

The answer has the bytes that a run of the schedule sends over the configuration
link of an INMOS C004, setting by setting, as pairs of hexadecimal digits:
  setting S 04 ..   the first setting's set a switch, whatever it was, and each
                    later one's change the switch of the setting before
Link 0 of module m is on link m of the switch, and link 3 on link 16+m. Where
BATCH names a module above 15, and with --switches 2, there are two switches,
with both links of module m on link m of each, and each setting has two lines:
  setting S a ..    the switch of the way from link 0 to link 3
  setting S b ..    the switch of the way back
A run has two switches where its rack has more than 16 modules, whatever BATCH
names. After each setting it also enquires all outputs, which isn't shown here.
With --wiring the links are those of a board with one switch. FILE has a line
for each of its N modules, by rising numbers, and one before them:
  wiring N
  module M link 0 at A link 3 at B   link 0 of module M is on link A of the
                                     switch, and link 3 on link B
with N from 1 to 16, M from 0 to 15, and links from 0 to 31, each of them once.
A module that isn't there has no line. Where a link of one is on no link of the
switch, write `none` in place of `at A`. --wiring and --switches exclude each
other.
Two transfers that write one block, which a run refuses, are named on standard
error.

Else it is the first of these that is wrong. The files are read first:
  refused file            a file can't be read
  refused wiring line N   line N of the wiring, from 1, is wrong or missing
  refused ..              BATCH, as `exchange plan --help` shows
  refused no module T     with --wiring: transfer T, from 0, names a module that
                          isn't there
  refused no link T       the same, where a link that T uses isn't there
  refused schedule line N line N of FILE, as `exchange check --help` shows
  refused check ..        the same, where FILE has no schedule of BATCH

Status: 0 the bytes were printed, 1 they were refused or there was no memory,
2 the arguments are wrong, 3 the answer couldn't be written.",
};

/// What help says of `orders`.
pub(crate) const ORDERS: CommandHelp = CommandHelp {
    about: "Prints what each module does: what it copies first, sends and receives, setting by \
        setting",
    example: "Example:\n  ./exchange orders examples/swap.txt",
    notes: "\
BATCH is a batch text, in the form that `exchange plan --help` shows.
`exchange switch --help` says which schedule of it the orders are for.

The answer is the line `modules N settings S`, and for each of the N modules that
have orders, from the first on:
  module M copies C orders O         O orders, and C blocks to copy before them
  copy block B                       C such lines: before setting 0 block B is
                                     copied aside
  setting K link L send block B      O such lines: in setting K all words of
                                     block B are sent over link L, 0 or 3;
  setting K link L send copy B       or those that were copied aside;
  setting K link L receive block B   or words that come become those of block B
Words are sent in their order. A module uses link 0 and link 3 at the same time
in a setting: if it used one after the other, it could wait for itself. A
setting begins when all modules are done with the one before. In the end each
block is where BATCH wants it.
With --module the answer has one module alone.

Else it is the first of these that is wrong. The files are read first:
  refused file            a file can't be read
  refused ..              BATCH, as `exchange plan --help` shows
  refused schedule line N line N of FILE, as `exchange check --help` shows
  refused check ..        the same, where FILE has no schedule of BATCH
  refused overlap I J     transfers I and J write one block

Status: 0 the orders were printed, 1 they were refused or there was no memory,
2 the arguments are wrong, 3 the answer couldn't be written.",
};

/// What help says of `drive`.
pub(crate) const DRIVE: CommandHelp = CommandHelp {
    about: "Sets a real switch: sends its bytes setting by setting, and asks what it has joined",
    example: "\
Example: a driver and a switch of this program, with two pipes between them:
  mkdir -p out; rm -f out/board.*; mkfifo out/board.in out/board.out
  ./exchange c004 < out/board.in > out/board.out &
  ./exchange drive examples/three-transfers.txt out/board --go-on",
    notes: "\
BATCH is a batch text, in the form that `exchange plan --help` shows.
`exchange switch --help` says which schedule of it is driven, what two switches
are, and what --wiring is. PORT is the way to the only switch, or to switch a.
PORT_B says that there are two switches, and is the way to switch b. A port is a
device of a link adaptor, which is opened to read and write; or, where PORT.in
and PORT.out are there, two named pipes, of which PORT.in goes to the switch. It
is opened first, and each pipe waits for its other end.

First each switch comes up: a command that was begun is ended, the switch is
reset, and up to 31 old answers that are on their way are read. Then, setting by
setting, the bytes are sent that `exchange switch` prints, and each output is
enquired; a reply is read and judged before the next command is sent. After the
last one 03 is sent again. Once all outputs have answered as the setting needs,
this is printed:
  setting K t t ..   setting K is set, from 0; these transfers may move now
Where a setting joins what is joined already, nothing is sent, and the line
comes at once. After each line a line of standard input is read, whatever it
says: it means that these blocks have moved. With --go-on none is read. With
--from K the first setting is setting K, set as after a reset; K is 0 to
999999999.

The answer is the last line: how it ended. The switches are left as they are:
  driven settings S            all S settings are set, or those from K on
  stopped setting K port       a byte couldn't be sent, or a reply didn't come
  stopped setting K switch O   output O of setting K answered otherwise; those
                               of switch b are counted from 32
  stopped setting K input      setting K is set, but no line could be read
  left setting K               setting K is set, and standard input ended
Standard error says more of what stopped it. A switch that says nothing is
waited for without end, and a terminal that isn't raw alters bytes and may hold
them back. For a device, settle both first:
  stty -F PORT raw -echo min 0 time 20

Else nothing is sent, and the answer is the first of these that is wrong:
  refused file            a file can't be read, or PORT leads to one that is read
  refused ..              a file, as `exchange switch --help` shows
  refused no setting K    --from names setting K, which the schedule doesn't have
  refused ports W         W ports are needed: 2 where BATCH names a module above
                          15, and 1 with --wiring
  refused port a          PORT can't be opened, or is a plain file with something
                          in it; `port b`: PORT_B

Status: 0 all settings, or those from K on, were set, 1 they weren't, it was
refused, or there was no memory, 2 the arguments are wrong, 3 standard output
couldn't be written.",
};

/// What help says of `c004`.
pub(crate) const C004: CommandHelp = CommandHelp {
    about: "Is a C004 switch: configuration bytes in, answers to enquiries out",
    example: "\
Example: input 3 feeds output 17, which is then enquired:
  printf '\\000\\003\\021\\002\\021' | ./exchange c004 | od -An -tx1
which prints `83`.",
    notes: "\
Standard input is the configuration link of an INMOS C004, and standard output
its way back. A command is one of these, I an input and O an output, or both
those of a link, from 0 to 31 as a byte:
  00 I O   input I feeds output O
  01 I O   input I feeds output O, and input O output I
  02 O     which input feeds output O? The answer is 80 + I, or 00 where none
           does, and is written at once
  03       the connections that were set up are in order
  04       no output is fed
  05 O     output O isn't fed
  06 I O   neither output O nor output I is
At first no output is fed. A byte that is no command, or no input or output, is
dropped, with what comes before it in its command, and a line on standard error
says so. --quiet leaves that line out.

Status: 0 standard input ended, 1 it couldn't be read any further, or there was
no memory, 2 the arguments are wrong, 3 an answer couldn't be written.",
};

/// What help says of `direct`.
pub(crate) const DIRECT: CommandHelp = CommandHelp {
    about: "Makes a batch of moves: which are pushed and which are pulled, for the fewest settings",
    example: "Example:\n  ./exchange direct examples/patterns/gather.moves.txt",
    notes: "\
MOVES is a text of moves: the line `moves N`, then N lines of the form
  move M b N c   block b of module M goes to block c of module N
with modules from 0 to 31 and blocks from 0 to 63, at most 4096 lines.

The answer is a batch text with one transfer for each move, in their order, in
the form that `exchange plan --help` shows: `push M b N c`, or `pull N c M b`.
A link carries one transfer in a setting, and a module has two links. So a
module with k ends of moves needs at least k/2 settings, rounded up. The answer
needs as many settings as the busiest module does; no directions need fewer.
  ./exchange direct MOVES | ./exchange plan -

Else it is the first of these that is wrong:
  refused file           MOVES can't be read
  refused moves line N   line N, from 1, has another form or no line feed
  refused too many       the first line says more than 4096
  refused no module T    move T, from 0, names a module above 31
  refused no block T     move T names a block above 63
  refused count          fewer than N lines follow, or something after them

Status: 0 a batch was printed, 1 the moves were refused or there was no memory,
2 the arguments are wrong, 3 the answer couldn't be written.",
};

/// What help says of `apply`.
pub(crate) const APPLY: CommandHelp = CommandHelp {
    about: "Places the blocks of a batch in your own words: an image in, an image out",
    example: "\
Example:
  ./exchange apply 3x2x2 examples/two-pushes.txt examples/before.img | od -An -tx1",
    notes: "\
SHAPE is MxKxW and BATCH a batch text, in the forms that `exchange run --help`
shows. IMAGE has all words of the modules: module by module and block by block,
each as four bytes, least significant first, so 4*M*K*W bytes.

The answer is the image that a run of the batch over these words leaves: as many
bytes, with its blocks placed, and all that the batch doesn't write as it was.

Else no image is printed, and the answer is the first of these that is wrong:
  refused file          BATCH or IMAGE can't be read
  refused shape         SHAPE is no shape
  refused ..            BATCH, as `exchange plan --help` shows, in this rack
  refused image L W     IMAGE has L bytes, and the shape wants W
  refused overlap I J   transfers I and J write one block

Status: 0 the image was printed, 1 it was refused or there was no memory, 2 the
arguments are wrong, 3 the answer couldn't be written.",
};

/// What help says of `run`.
pub(crate) const RUN: CommandHelp = CommandHelp {
    about: "Runs a batch on a rack: sets the switches, moves the blocks and reports",
    example: "Example:\n  ./exchange run 3x2x2 examples/two-pushes.txt",
    notes: "\
SHAPE is MxKxW: M modules, from 1 to 32, each of K blocks, from 1 to 64, each
of W words, from 1 to 256. BATCH is a batch text, in the form that
`exchange plan --help` shows, with modules below M and blocks below K.
`exchange switch --help` says by which schedule it is run.

Word j of block b of module m is 65536 m + 256 b + j before the run, or that of
the image where there is one. The answer is the line
`ran settings S words X bits Y`: how many settings the switches had, how many
words were moved, and how many bits went over the links for them. With --steady
or --schedule a second line says how often the switch changed, the first
setting counted:
  changes N
Then comes each block that was written, by module and then by block:
  block M B hex8 ..   its words, of eight hexadecimal digits each

Else nothing is run, and the answer is the first of these that is wrong:
  refused file            the image, BATCH or FILE can't be read
  refused shape           SHAPE is no shape
  refused ..              BATCH, as `exchange plan --help` shows, in this rack
  refused schedule line N line N of FILE, as `exchange check --help` shows
  refused check ..        the same, where FILE has no schedule of BATCH
  refused image L W       the image has L bytes, and the shape wants W
  refused overlap I J     transfers I and J write one block
Such a batch isn't run: the result would depend on which transfer came last. Of
several such pairs the one with the smallest I is printed, then the smallest J.
A block may be read and written: what it held before the run is moved.

Status: 0 the batch was run, 1 it was refused or there was no memory, 2 the
arguments are wrong, 3 the answer couldn't be written.",
};

/// What help says of `serve`.
pub(crate) const SERVE: CommandHelp = CommandHelp {
    about: "Serves scripts side by side on one exchange, and prints the replies to each",
    example: "Example:\n  ./exchange serve 2x2x2 examples/look.session.txt",
    notes: "\
SHAPE is MxKxW, in the form that `exchange run --help` shows. Each SCRIPT is a
file of session lines; 1 to 16 of them are served at once, each in a thread of
its own where the system has one. They share one rack, whose words are at first
0, or those of the image. Whose line comes first isn't fixed.

A line has at most 80 bytes, and single spaces between its words. It is answered
by one line:
  batch N      takes the N batch lines after it, N up to 4096: accepted ID
  plan ID      plans the batch: planned ID settings S
  run ID       runs its plan: ran ID run R settings S words X bits Y
  show ID      gives its state: batch ID transfers N waiting, or planned, or ran
  drop ID      forgets the batch: dropped ID
  peek M A     reads the word of module M at address A: word D
  poke M A D   writes D there: poked
  progress     says how far the last run is: progress run R done SETTINGS
  bye          ends the session: bye
Batches and runs are numbered from 1, those of all sessions together: so let one
script alone hand batches in. Before the first run, R is 0. A batch is answered
after its last line, is its session's own, and is run once. A and D are eight
hexadecimal digits in lower case. Word j of block b is at address
80000800 + 4 (W b + j), in hexadecimal digits.

The answer is, for each script in the order given, the line `session I`, with I
from 0, and then the lines that answer its own. A line may be refused. Then
nothing has changed, and the session goes on:
  refused line               the line has another form
  refused ..                 the batch, as `exchange plan --help` shows, in
                             this rack; its lines count from the line `batch N`
  refused unknown            the session has no batch ID
  refused unplanned          batch ID has no plan
  refused already            it has a plan already, or was run already
  refused overlap I J        as `exchange run --help` shows
  refused memory no module   there is no module M
  refused memory misaligned  A isn't a multiple of four
  refused memory outside     no word of the module is at A
  refused book full          the exchange holds 256 batches: drop one first
  refused history full       `serve` has answered 65536 calls; `host` and `talk` say
                             so after batch or run 999999999: start it anew
  refused no memory          there was no memory for it
A session that doesn't end with its script or by `bye` has one line more:
  ended cut                  the script ends within a line or within a batch
  ended line too long        a line has more than 80 bytes
  ended turns                the script was read 1000000 times, 81 bytes at most
  ended no memory            there was no memory for the lines of a batch
  ended write                there was no memory for an answer
  ended read                 the script can't be read any further

--record writes each call of all sessions with its reply when all have ended, in
the form that `exchange replay --help` shows. --image-out then writes the words,
in the form that `exchange apply --help` shows, to a new file that then takes
the name FILE. FILE can't be `-`, nor one that is read or written too.

Else nothing is served, and the answer is the first of these that is wrong:
  refused file               the image or a SCRIPT can't be read, the FILE of
                             --record or --image-out can't be opened, or leads to
                             one that is read or written too
  refused shape              SHAPE is no shape
  refused image L W          the image has L bytes, and the shape wants W

Status: 0 each session ended with its script or by `bye`, 1 one of them didn't,
or nothing was served, or there was no memory, 2 the arguments are wrong, 3 the
answer, the record or the image couldn't be written.",
};

/// What help says of `host`.
pub(crate) const HOST: CommandHelp = CommandHelp {
    about: "Serves live clients side by side on one exchange, each through two pipes of its own",
    example: "\
Example: two clients on one rack. Make the pipes, and start the host:
  mkdir -p out; rm -f out/amy.* out/bob.*
  mkfifo out/amy.in out/amy.out out/bob.in out/bob.out
  ./exchange host 2x1x2 out/amy out/bob
In a second shell be amy:
  exec 3> out/amy.in 4< out/amy.out
  echo 'poke 0 80000800 000000ff' >&3; read reply <&4; echo $reply
  exec 3>&- 4<&-
which prints `poked`. The last line closes amy's pipes, and her session ends.
The host waits for bob: be him too, by the same lines with his name, or it waits
on.",
    notes: "\
SHAPE is MxKxW, in the form that `exchange run --help` shows. 1 to 16 clients
are served at once, each in a thread of its own, on one exchange: one rack,
whose words are at first 0, or those of the image where there is one. Lines and
replies are those that `exchange serve --help` shows. Each reply is written as
soon as it is there, and before more is read; with --record, those to lines that
came together may be written together.

What a client says is read from CLIENT.in, and its replies are written to
CLIENT.out. Usually both are named pipes. Plain files work too: CLIENT.out is
made where it isn't there, and emptied. CLIENT.in is opened first, and each
pipe waits for its client: so let a client open its CLIENT.in before its
CLIENT.out. A client that comes late, or never, holds no other up; the host ends
when all sessions have ended. A name may have a path before it. It can't be
empty or have a line feed, and no two clients have one name.

The answer comes at the end: for each client, in the order given, the line
`session I CLIENT`, with I from 0. Where a session didn't end with its CLIENT.in
or by `bye` another line follows, which `exchange serve --help` shows. Here they
mean:
  ended open    CLIENT.in or CLIENT.out can't be opened: it asked nothing
  ended cut     the client went away within a line or within a batch
  ended turns   CLIENT.in was read 1000000 times: a new host counts anew
  ended read    CLIENT.in can't be read any further
  ended write   the client reads its replies no more
  ended record  the record couldn't be written: no call is made any more

--record writes each call with its reply, in the form that
`exchange replay --help` shows, before the reply is sent. FILE has to be empty,
or not to be there, or to have no more than the head; else it stays as it was. A
host that is killed leaves all that was answered, and no line `end E`. With
--resume FILE may have what such a host left, if that had the same SHAPE, image
and clients: its calls are made again, what isn't whole is cut off, and the
clients go on where it ends, each in the session of its place. With --sync a
reply is sent once its entry is on the disk; other clients go on meanwhile.
--image-out writes the words at the end, in the form that
`exchange apply --help` shows, to a new file that then takes the name FILE.

Else nobody is served, no pipe is opened and no call of a client is made. The
answer is the first of these that is wrong:
  refused file       the image can't be read, the FILE of --record or --image-out
                     can't be opened, or a file that is written leads to one
                     that is read or written too
  refused shape      SHAPE is no shape
  refused image L W  the image has L bytes, and the shape wants W
  refused file       FILE has more than the head, and --resume isn't there
  refused record ..  FILE can't be continued, as `exchange replay --help` shows
  refused threads    the system has no thread for each client

Status: 0 each session ended with its CLIENT.in or by `bye`, 1 one of them
didn't, or nobody was served, or there was no memory, 2 the arguments are
wrong, 3 the answer, the record or the image couldn't be written.",
};

/// What help says of `talk`.
pub(crate) const TALK: CommandHelp = CommandHelp {
    about: "Serves you on the terminal: a session of one client, line by line",
    example: "\
Example:
  printf 'poke 0 80000800 000000ff\\npeek 0 80000800\\n' | ./exchange talk 1x1x1
which prints `poked` and `word 000000ff`.",
    notes: "\
SHAPE is MxKxW, in the form that `exchange run --help` shows. The words of the
rack are at first 0, or those of the image where there is one. The session's
lines are read from standard input, and answered on standard output before more
is read. So the image can't be `-`. The lines are
  batch N, plan ID, run ID, show ID, drop ID, peek M A, poke M A D, progress, bye
`exchange serve --help` says what each does, and how it is answered.

The session ends with the input or by `bye`; where it doesn't, its last line is
`ended ..`, as `exchange serve --help` shows. `exchange host --help` explains
--record, --resume, --sync and --image-out.

Else no line is read and no call of yours is made, and the answer is what is
first wrong, as `exchange host --help` shows; but no threads are needed.

Status: 0 the session ended with its input or by `bye`, 1 it didn't, or it was
refused, or there was no memory, 2 the arguments are wrong, 3 the answer, the
record or the image couldn't be written.",
};

/// What help says of `replay`.
pub(crate) const REPLAY: CommandHelp = CommandHelp {
    about: "Replays a record: makes its calls again, compares each reply, and prints the image \
        left",
    example: "Example:\n  ./exchange replay examples/two-clients.record.txt | od -An -tx1",
    notes: "\
RECORD is what --record of `exchange serve` wrote, or of `host` or `talk`: a
head, entries, and the line `end E`, where E counts the entries. The head is
  record-2 MxKxW SUM N   the rack's shape, and the Adler-32 of the image with
                         which it begins, as eight hexadecimal digits
  client NAME            N such lines: the clients of `host`, in their order
An entry is
  S CALL   what session S, from 0, asked: a line of a session, as
           `exchange serve --help` shows, and after `batch N` its N lines
  REPLY    the line that answered it
But `plan ID` is two calls: `fetch ID`, which is answered by `fetched`, and
`settle ID`, which is answered as `plan ID` is. `progress` and `bye` are none,
nor is a line that was refused for its form, or a batch that a session couldn't
hand in. A record may have a batch that names more than the rack has: its
`run ID` is answered by `refused shape`.

After the head, after each entry and after the line `end E` comes a line
  =SUM     the sum of these lines, as eight hexadecimal digits. It begins as the
           number of entries before them, which is 0 for the head. Each of their
           bytes then makes it SUM * 2891336453 + BYTE, modulo 2 ^ 32

The calls are made again, one after the other, on a rack whose words are at
first 0, or those of the image where there is one. Each reply is compared with
the record's. At `settle ID` the batch is planned again: no plan is in a record,
and no reply depends on which it was. The answer is the image of the
words that are left, in the form that `exchange apply --help` shows, and it is
what --image-out wrote beside RECORD. A host may be writing it still, or was
killed: then the last entry may be cut off, and there is no `end E`. What is
whole is replayed, and a line on standard error says how much that is. With
--first E the first E entries are replayed, all where there are fewer, and no
more is looked at.

Else the answer is the first of these that is wrong. The files are read first:
  refused file            RECORD or the image can't be read
  refused shape           SHAPE is no shape
  refused record head     there is no head, or it is cut off or changed, or it
                          has another shape than SHAPE, or the sum of another
                          image
  refused image L W       the image has L bytes, and the record's shape wants W
  refused record sum E    E entries are right, and what comes after them was
                          changed, left out or added
  refused record call E   E entries are right, and no call comes after them
  refused record reply E  E entries are right, and the call after them has
                          another answer
  refused record more     something comes after `end E` and its sum
The line on standard error says what is there, and what is expected.

Status: 0 the image was printed, 1 the record was refused or there was no
memory, 2 the arguments are wrong, 3 the answer couldn't be written.",
};

/// What help says of the program, below the commands too.
pub(crate) const PROGRAM: CommandHelp = CommandHelp {
    about: "Plans block transfers between transputer modules that C004 crossbars join",
    example: "Example:\n  ./exchange run 3x2x2 examples/two-pushes.txt",
    notes: "\
`exchange plan --help` shows the form of a batch. Where a file's name is `-`,
standard input is read; of a command's files one at most may be that.
`exchange run --help` says how many modules, blocks and words there may be,
`exchange plan --help` how many transfers, and `exchange serve --help` how long
a session may be.

A refusal is one line on standard output. A second line, on standard error, says
which file and line it is about, what is there, and what is expected. Each
command takes --quiet, which leaves the second line out.

Status: 0 the answer is there, 1 a refusal, whose one line says what is wrong,
or a session that ended badly, 2 the arguments are wrong, 3 the answer, a
record or an image couldn't be written.",
};
