//! A settings file, as one is written.

/// A settings file of two ports and three clients, commented line by line for whoever writes one. `read` reads it.
///
/// Source: TOML 1.1; the keys are this gateway's own.
pub const EXAMPLE: &str = "\
# Settings of the gateway, in TOML. A text is written between two double quotes.
# Every key of the gateway, its ports and its clients has to be there, and no other key may be but those of an operator,
# at the end. The gateway names the first key that is missing or wrong.

# The gateway's own name: the TargetCompID (56) of what clients send, the SenderCompID (49) of what they are sent.
# 1 to 20 ASCII characters, no space among them.
comp = \"GATE\"

# A port of the market: one table each, 1 to 16 of them. The gateway connects to it and logs in.
[[port]]
# Its name in this file alone; 1 to 20 ASCII characters, no space; no two ports have the same.
name = \"P1\"
# Where it is connected to: host, colon, TCP port. At most 255 ASCII characters, no space.
address = \"10.1.1.5:26400\"
# The user that the market gave you; 1 to 6 bytes.
user = \"USER01\"
# Its password; at most 10 bytes, and it may be empty.
password = \"PASSWORD\"

# A second port. It stands behind the first and is number 2 in audits.
[[port]]
name = \"P2\"
address = \"10.1.1.6:26400\"
user = \"USER02\"
password = \"\"

# A client: one table each, 1 to 64 of them. The gateway listens for it and waits for its Logon.
[[client]]
# Its name: the SenderCompID (49) of what it sends. 1 to 20 ASCII characters, no space; no two clients have the same.
comp = \"BANK\"
# Where it is listened for: address, colon, TCP port; 0.0.0.0 is each address of this machine. No two are the same.
listen = \"0.0.0.0:9001\"
# The port that all its orders go to: the name of one of those above.
port = \"P1\"
# The firm that its orders are entered for; 1 to 4 ASCII characters, a space is one. It is padded right to 4.
firm = \"FIRM\"
# For whom it trades where an order has no 528: A as agent, P as principal, R as riskless principal.
capacity = \"A\"
# Whether its customers are retail ones: R they are, N they aren't, or a space where that isn't said.
customer = \"R\"

# A second client on the same port.
[[client]]
comp = \"BROKER\"
listen = \"0.0.0.0:9002\"
port = \"P1\"
firm = \"BRK\"
capacity = \"P\"
customer = \"N\"

# A third one, on the second port, for which the gateway listens on this machine alone.
[[client]]
comp = \"DESK\"
listen = \"127.0.0.1:9003\"
port = \"P2\"
firm = \"FIRM\"
capacity = \"R\"
customer = \" \"
# For gateway serve: from which addresses it may connect; from anywhere where this is missing. (Optional.)
from = [\"127.0.0.1\", \"10.4.0.0/16\"]

# What an operator sets for gateway serve. All of it is optional.
[day]
# When a day ends, in UTC. Where this is missing it ends when it is told to, by gateway end.
ends = 21:05:00
# For how many seconds the market's answers are awaited then, before the links of clients are closed: 0 to 3600, or 10.
linger = 10

# The control endpoint, over which gateway end tells a day to end.
[control]
# Where it listens. Without a token only 127.0.0.1, [::1] or localhost.
listen = \"127.0.0.1:9100\"
# What each request has to give; 16 to 64 ASCII characters, no space.
# token = \"0123456789abcdef\"
# A further name under which a browser may call it: host, colon, TCP port.
# host = \"gw1.example:9100\"
";
