//! How programs are called.

use crate::help::Help;

/// Of `hs_draw`.
pub const DRAW: Help = Help {
    name: "hs_draw",
    text: "hs_draw COMMITTEE R=file:PATH.. > fork.svg\n\
hs_draw --help\n\
hs_draw --version\n\
\n\
Audits logs and draws what they show and whom they accuse, as one SVG picture.\n\
R=file:PATH is the log of replica R, an export. It writes no verdict.\n\
\n\
Status: 0 it was drawn; 2 a fault. See hs_draw(1).\n",
};

/// Of `hs_follow`.
pub const FOLLOW: Help = Help {
    name: "hs_follow",
    text: "hs_follow OLD NEW SOURCE.. [--renewal FILE] [--proof OUT] [--light OUT]\n\
hs_follow C0 --lineage DIR [--fetch SOURCE..]\n\
hs_follow --help\n\
hs_follow --version\n\
\n\
Says whether the committee of the file OLD handed its ledger over to that of the\n\
file NEW. SOURCE is the log of replica R of OLD: R=file:PATH, an export, or\n\
R=tcp:HOST:PORT, as hs_signer --serve hands it out.\n\
\n\
\x20 --renewal FILE   says what the renewal in FILE says of each slot of NEW\n\
\x20 --proof OUT      writes what proves the handover to the new file OUT\n\
\x20 --light OUT      writes a light proof of it to the new file OUT\n\
\x20 --lineage DIR    judges the steps in DIR from the committee of C0 on\n\
\x20 --fetch SOURCE   asks servers for the steps that come next; R=tcp:HOST:PORT\n\
\n\
Status: 0 it names NEW; 1 it names another, or there is none; 3 commits\n\
conflict; 2 a fault. See hs_follow(1).\n",
};

/// Of `hs_signer`.
pub const SIGNER: Help = Help {
    name: "hs_signer",
    text: "hs_signer COMMITTEE R DIR [OPTION]..\n\
hs_signer --help\n\
hs_signer --version\n\
\n\
Votes for replica R of the committee, for a ledger that asks it over HTTP. DIR\n\
is the replica's folder, as hs_tool keygen made it: never copy it, and never\n\
put it back to a backup.\n\
\n\
\x20 --listen WHERE     unix:PATH, or tcp:ADDRESS of this machine\n\
\x20                    (unix:DIR/signer.sock)\n\
\x20 --read ADDRESS     a second address, where nothing can be posted\n\
\x20 --serve ADDRESS    hands out the log there, to audits and other signers\n\
\x20 --ask SOURCE       the log of another replica, R=tcp:HOST:PORT or R=file:PATH,\n\
\x20                    read before any vote; once for each other replica\n\
\x20 --successor FILE   the committee's file that the ledger may be handed over to\n\
\x20 --sessions N       how many connections are answered at once: 1 to 64 (16)\n\
\x20 --furthest D       how far above the vote view a view may lie (4096)\n\
\x20 --host NAME        a name that Host may have over TCP\n\
\x20 --group            lets the signer's group connect to the socket at PATH\n\
\x20 --while-input      ends where standard input ends\n\
\x20 --verbose          a line on standard error for each call\n\
\x20 --renew            goes over to the next committee in one process\n\
\x20 --keep N           keeps the logs of the last N chains; only with --renew\n\
\x20 --compared ID      the newest chain, as you compared it; only with --renew\n\
\n\
Status: 0 ended; 4 the log was put back; 2 a fault. See hs_signer(1).\n",
};

/// Of `hs_watch`.
pub const WATCH: Help = Help {
    name: "hs_watch",
    text: "hs_watch COMMITTEE OUTDIR SOURCE.. [OPTION]..\n\
hs_watch --export R-I OUT --state DIR\n\
hs_watch --help\n\
hs_watch --version\n\
\n\
Watches the logs of replicas, and writes a verdict on each culprit to OUTDIR, a\n\
folder that is there. SOURCE is the log of replica R: R=tcp:HOST:PORT, as\n\
hs_signer --serve hands it out, or R=file:PATH, an export.\n\
\n\
\x20 --every SECONDS     how long it waits before it asks a source again (1)\n\
\x20 --reread SECONDS    after how long it reads all of a log again (3600)\n\
\x20 --listen ADDRESS    tells over HTTP what it knows, as at 127.0.0.1:7190\n\
\x20 --host NAME         a name that Host may have there; only with --listen\n\
\x20 --name TEXT         its name on its page; only with --listen\n\
\x20 --state DIR         keeps what it reads in the folder DIR\n\
\x20 --keep-most BYTES   how much DIR may hold; only with --state\n\
\x20 --until-culprit     ends with status 3 once the first verdict is stored\n\
\x20 --until-input-ends  ends where standard input ends\n\
\x20 --lineage           goes over with the ledger, to each next committee\n\
\x20 --export R-I OUT    writes the logs that DIR keeps of source I of replica R\n\
\n\
Status: 0 ended, no culprit; 3 ended, culprits; 2 a fault. See hs_watch(1).\n",
};
