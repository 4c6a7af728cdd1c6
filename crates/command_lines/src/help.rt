//! What stands below the options in the help of each subcommand.

/// Of `gateway audit`.
pub(crate) const AUDIT: &str = "\
A script says all that happens, an event a line (gate_script --help has the lines). Each order that was accepted
is one line of the audit, with what its client read of it in the FIX reports, and whether that is what the market said:

  $ cat day.script
  C1 msg 35=D|11=A1|54=1|55=INTC|38=300|40=2|44=23.45
  P1 A 1 B 300 INTC 234500 99998 L
  P1 E 1 300 234500 1
  $ gateway audit --script day.script
  C1 A1 side 1 executed 300 open 0 cancelled 0 value 70350000 agree
  orders 1 agree 1

The journal of a day, as gateway run --journal and gateway journal write it, is audited by the settings of that day:

  $ gateway audit --journal monday.day --settings settings.toml
  C1 A1 side 1 executed 300 open 0 cancelled 0 value 70350000 agree
  ..

A day that goes on is refused, unless --so-far is said: then what was written so far is audited, be it that the gateway
runs or was killed, and standard error says how the file ends, as the day goes on: its file has no end.

Values are in 1/10,000. The status is 0 where all orders agree, 1 where one doesn't, where memory runs out or a
read or write fails, 2 at a line that isn't understood, a journal that is damaged (page N: FAULT, counted from 0), a
day that goes on, without --so-far, or a file that can't be read.";

/// Of `gateway journal`.
pub(crate) const JOURNAL: &str = "\
A journal has each event of a day with what the gateway made of it, in pages that are read again and audited:

  $ gateway journal --script day.script > script.day
  $ gateway audit --journal script.day --settings settings.toml

Its settings are those that every script has. The status is 0 at the script's end, 1 where memory runs out or a read
or write fails, 2 at a line that isn't understood or a file that can't be read.";

/// Of `gateway run`.
pub(crate) const RUN: &str = "\
The settings say where each client is listened for, and where each port of the market is connected to:

  $ cat settings.toml
  comp = \"GATE\"
  [[port]]
  name = \"P1\"
  address = \"127.0.0.1:9001\"
  user = \"USER01\"
  password = \"PASSWORD\"
  [[client]]
  comp = \"C1\"
  listen = \"127.0.0.1:9011\"
  port = \"P1\"
  firm = \"FIRM\"
  capacity = \"A\"
  customer = \"R\"
  $ gateway run --settings settings.toml --links 3
  20261126-13:30:00.041 P1 up
  20261126-13:30:02.310 C1 up
  20261126-13:41:17.002 C1 gone
  ..

It ends when each client has connected and gone so often, and then prints the audit of its day, as gateway audit
does. A port is connected again a second after its link is lost. Each link that comes and goes is told on standard
error. With --journal FILE each step is in that file, synced, before anybody is told of it: a gateway that was killed
goes on with its day when it is started again with the same file, gateway end --journal ends a day that isn't to go on,
and gateway audit --journal reads it.

With --sync Nms, N from 1 to 60000, or --sync never, each step is with the system before anybody is told, and is synced
each N milliseconds, or when the system does it. A gateway that is killed has lost nothing; but where the machine stops
the last moment may be lost: what clients and ports were told then isn't in the file, and a gateway that goes on behind
it gives numbers, OrderIDs and tokens a second time.

The status is 0 where all orders agree, 1 where one doesn't, where memory runs out, a thread can't be had or the journal
can't be written, 2 for settings that are refused, which the first key that is missing or wrong names, or a journal that
is in use, over or damaged.";

/// Of `gateway serve`.
pub(crate) const SERVE: &str = "\
Clients come and go, and ports are connected again after a link is lost, until the day ends: by gateway end, or at the
time of day that the settings name. What an operator sets stands in the same settings, all of it optional:

  [day]
  ends = 21:05:00               # UTC; without it the day ends when it is told to
  linger = 10                   # seconds that the market's answers are awaited then
  [control]
  listen = \"127.0.0.1:9100\"    # where gateway end tells it to end; without it only the time of day does
  token = \"0123456789abcdef\"   # has to be given; 127.0.0.1, [::1] and localhost alone need none
  [[client]]
  ..
  from = [\"10.4.0.0/16\"]      # from where this client may connect; from anywhere without it

Each address is listened at before a port is connected. At the end no further link is taken, the market's answers are
awaited for a while, the link of each client and then of each port is closed once what lay there for it is written, and
the audit of the day is printed. --journal and --sync are as gateway run has them. Orders that are open at the market,
or that it hasn't answered, are named on standard error. The status is 0 where all orders agree, 1 as gateway run has
it, 2 for settings that are refused, an address that can't be listened at, or a journal that is in use, over or damaged:
then nothing was connected.";

/// Of `gateway end`.
pub(crate) const END: &str = "\
The gateway is told over the address of [control] in its settings, and with their token.

  $ gateway end --settings settings.toml

The status is 0 once it has ended, 1 where it hasn't within 60 seconds, or refuses, 2 where nobody answers, or the
settings are refused or name no address.

The day of a gateway that was killed, or whose machine stopped, is ended by its journal:

  $ gateway end --journal monday.day --settings settings.toml

What the journal has is stepped again and compared, each link that was up is gone, nobody is connected, the journal has
its end, the audit of the day is printed, and orders that are open at the market, or that it hasn't answered, are named
on standard error. The status is 0 where all orders agree, 1 where one doesn't, where memory runs out or the journal
can't be written, 2 where the settings are refused, or for a journal that isn't there, is in use, over, damaged or not
what these settings give.";

/// Of `gateway export`.
pub(crate) const EXPORT: &str = "\
A journal has the passwords of ports, and isn't handed on. Its export is: a row for each new order, request, report and
reject, and for each message that the market was asked or said, in the order in which they came and were told.

  $ gateway export --journal monday.day --format messages
  20261126-13:30:02.310 C1 < 35=D|11=A1|54=1|55=INTC|38=300|40=2|44=23.45
  20261126-13:30:02.310 C1 > 35=8|37=1|11=A1|17=1|150=A|39=A|55=INTC|54=1|38=300|44=23.45|151=300|14=0|6=0
  20261126-13:30:02.310 P1 > ouch=O|token=G0000000000001|shares=300|price=234500
  ..

csv has a line with the names of its columns first; json has an object a line. Of a day that goes on all that was
written of it is there, with the day goes on on standard error. The status is 0 where all was written, 1 where memory
runs out or a write fails, 2 for a journal that is damaged, a file that can't be read, or another format.";

/// Of `gateway demo`.
pub(crate) const DEMO: &str = "\
Two clients send three orders each, a simulated market takes and fills them, all on loopback; printed is the audit:

  $ gateway demo
  C1 A1 side 1 executed 100 open 0 cancelled 0 value 10000000 agree
  ..
  orders 6 agree 6

The status is 0 where all orders agree, 1 where one doesn't, and where a client waits ten seconds for an answer, with
demo: not finished on standard error.

With --serve the clients and the market go on trading, slowly, until it is told to end. It prints its settings, with the
address of the page in front; in a file they are what gateway end is given:

  $ gateway demo --serve | tee demo.toml
  # the page: http://127.0.0.1:41571/
  ..
  $ gateway end --settings demo.toml

Behind them stands the audit then. Ctrl-C ends it at once, without one.";

/// Of `gateway world`.
pub(crate) const WORLD: &str = "\
Clients that a seed draws send orders, replaces and cancels; a market for each port answers by choices that it draws;
links are lost with what is on their way, and come again; all in memory. In the end all is delivered, and each order
that was accepted is judged: what its client read of it, what its market said, and what its market's book has:

  $ gateway world --seed 7 --steps 300
  steps 300 events 168 orders 22 trades 8 lost 14 faults 0 agree 22

The same seed draws the same steps. The status is 0 where no message of the market was a fault and all orders agree, 1
where not, and where memory runs out, 2 for a number that isn't one, or is out of its range.";
