//! What the programs' lines mean.

/// A row for each line that a program prints, behind it a line feed but for the last: which programs print it, the line, what it
/// means, and what to do, with ` | ` between. Of the line a word in capitals stands for any word, or for a number where it is one
/// letter, also where a comma stands after both; one behind `=` for itself, and one that ends in `..` for one or more.
pub(crate) fn table() -> &'static str {
    "hs_check | accepted replica R rule K view V | The verdict proves that replica R broke rule K (1, a double vote; 2, a lock violation); V is the view of its later vote. | Send the verdict to everyone who must agree to the removal; each judges it under a committee's file of their own.\n\
hs_check, hs_show --statement | refused 1 Short | The verdict has fewer than 39 bytes. | It is no verdict: get the file anew.\n\
hs_check, hs_show --statement | refused 2 Magic | The file does not begin with HSX2. | It is no verdict, or one from before votes named their keys (HSX1), which the programs from before judge.\n\
hs_check, hs_show --statement | refused 3 Kind | Its kind is neither 1 nor 2. | It is no verdict: get the file anew.\n\
hs_check, hs_show --statement | refused 4 Length | It has not as many bytes as its kind asks for. | The file was cut or lengthened: get it anew.\n\
hs_check, hs_show --statement | refused 5 Chain | Its chain id is not the one of this committee. | See that both files are of one committee. A verdict says nothing under another committee.\n\
hs_check, hs_show --statement | refused 6 Replica | The committee has no such replica. | The verdict proves nothing.\n\
hs_check, hs_show --statement | refused 7 HeaderMismatch | A header of a lock violation can't be read, or is not the one that the votes ask for. | The verdict proves nothing.\n\
hs_check, hs_show --statement | refused 8 NoRuleBroken | Its votes, in the order in which they stand, do not break the rule of its kind. A lock violation with its votes in the other order is refused so too, and so is a double vote that was filed as kind 2: it does not say that a correct replica casts both. | The verdict proves nothing, neither against the replica nor for it.\n\
hs_check, hs_show --statement | refused 9 SignatureE | The first vote's signature does not verify under the key that it names. | The verdict proves nothing.\n\
hs_check, hs_show --statement | refused 10 SignatureW | The second vote's signature does not verify under the key that it names. | The verdict proves nothing.\n\
hs_check, hs_show --statement | refused 11 KeyNumber | A vote names a key that the replica has not. | The verdict proves nothing.\n\
hs_tool audit --why | SOURCE no such file | No file has that path. | Look for a slip in the path.\n\
hs_tool audit --why | SOURCE a folder | The path is a folder's. | Name the export in it.\n\
hs_tool audit --why | SOURCE can't be read | The file can't be opened or read, or the call of the server failed for a reason that has no word here. | Look at the rights of the file, or at the server.\n\
hs_tool audit --why | SOURCE no such host | The address names no host. | Look for a slip, or write the number of the host.\n\
hs_tool audit --why | SOURCE refused | Nobody listens at the address. | See that the replica hands out its log now (hs_signer --serve, hs_tool replica --serve).\n\
hs_tool audit --why | SOURCE reset | The host broke the connection off. | Audit again; look at the server.\n\
hs_tool audit --why | SOURCE timed out after N s | Nothing came for so many seconds. | Audit again; look at the way to the server.\n\
hs_tool audit --why | SOURCE ends early | The stream ended before its end mark, as that of an empty file does. | Ask for that log again.\n\
hs_tool audit --why | SOURCE not an export | The bytes are not laid out as an export. | hs_show FILE says what the file is.\n\
hs_tool audit --why | SOURCE not an export (a journal: see export) | It is a replica's log.hsj. | Where no replica runs on it: hs_tool export LOG OUT, and audit OUT.\n\
hs_tool audit --why | SOURCE not an export (a committee) | It is a committee's file. | Name the export.\n\
hs_tool audit --why | SOURCE not an export (a verdict) | It is a verdict. | Name the export; hs_check judges verdicts.\n\
hs_tool audit --why | SOURCE not an export (a seed) | It has the length of a key's seed. | Never hand a seed out. Name the export.\n\
hs_tool audit --why | SOURCE the old form: see migrate | Its first frame begins as an entry from before votes named their keys. | hs_tool migrate OLD NEW COMMITTEE carries such a log over.\n\
hs_tool audit --why | SOURCE K frames are no entries | So many whole frames spell no entry; the log of a correct replica has none. | Ask for another copy; suspect who handed this one out.\n\
hs_tool audit --why | SOURCE V votes, G good: another committee, or another R? | The log names V different votes, of which G are good. | Compare chain ids (hs_show COMMITTEE), and see that it is the log of that replica.\n\
hs_tool audit --why | SOURCE an entry is no legal step | Each entry may be good, but they are not what a replica stores one after the other: no correct replica has this log. | Ask for another copy; suspect who handed this one out.\n\
hs_tool audit --why | SOURCE sound, and empty | The log is whole and has no entry, as that of a committee which has just begun. It counts as sound. | See that the committee is as new as that.\n\
hs_tool audit --why | SOURCE sound, with no vote of its own | The log is sound, and has no vote of its own replica: it would be sound under any R. It counts as sound. | See that the replica has not voted yet, and that it is its log.\n\
hs_tool audit --why | why sound S of T, quorum Q | With --strict or --strict-all: the different replicas of sound sources weigh S of the whole weight T, less than the quorum Q. | The lines before it say why sources are not sound. Get sound logs of replicas that weigh what is missing.\n\
hs_tool audit --why | verdict PATH | The verdict on a culprit stands at PATH. | Send it to everyone; each judges it by hs_check COMMITTEE PATH.\n\
hs_signer | stopped vote view V id ID not in the log | A good certificate, or one in another's log that --ask reads, has a good vote of this replica on that block that its log lacks: its folder was put back to a backup, or its key signs elsewhere too. It votes no more, and wrote DIR/put-back. | Leave put-back where it is, hand out the log, and tell the other operators: the replica counts as one of the f until there is a new committee.\n\
hs_signer | put-back not written PATH.. | The log was found to be put back to a backup (stopped vote), and the file that keeps each later start from voting could not be written or synced. This process gives no vote more all the same. | Make an empty file at PATH before anything starts the signer again, and see to the disk.\n\
hs_signer | asking | Before it takes a block it reads the logs of others, which --ask names, and replicas of more than a third of the weight were not heard yet. Nothing was done. | Ask again. Where it stays so, standard error says of each source why it is not heard (asking source I).\n\
hs_signer | asking source I Whole | Source I of --ask, counted from 0, was read to its end: its replica is heard. | Nothing.\n\
hs_signer | asking source I Cut | What came of source I of --ask, counted from 0, ended early, as an empty file does. It is read again. | Where it stays so, see whether its server runs, or get the file anew.\n\
hs_signer | asking source I Broken | What source I of --ask, counted from 0, gave is no export, or does not end as one. It is read again. | See that its path or address is that of a replica's log.\n\
hs_signer | asking source I TooLong | Source I of --ask, counted from 0, gave more entries than a log has. It is read again. | Ask who serves it.\n\
hs_signer | asking source I Failed | Source I of --ask, counted from 0, could not be reached, or not read to its end. It is read again. | See that its path or address is right, and that its server runs and can be reached.\n\
hs_signer | asking source I Unresolved | The host that source I of --ask, counted from 0, names can't be found. It is looked up again. | Look for a slip in the word, and at the name service; or write the number of the host.\n\
hs_signer | asking source I OtherChain | What source I of --ask, counted from 0, gave is a log under another committee's file, or its server has no log of this committee's chain: its replica is not heard. | See that its path or address is that of a replica of this committee.\n\
hs_signer | asking source I Unnamed | The server of source I of --ask, counted from 0, closed without a byte when it was asked for the log of this chain, as versions before this one do, or a tunnel whose server is down, and was asked again without the chain's name. | Have whoever runs that server take this version.\n\
hs_signer | asking source I OwnLog | Source I of --ask, counted from 0, has a vote of this replica, and in its view the replica's own log can't be read, or has a vote on that block that is not good. It is read again. | Ask GET /vote/V for the views of that source, and see to the disk of the replica's folder.\n\
hs_signer | asking source I Memory | Memory was refused while source I of --ask, counted from 0, was read. It is read again. | Free memory.\n\
hs_signer | successor not read | A block that hands over came, or GET /successor, and the file of --successor can't be opened or read, or memory was refused. It is as if it were not there, and such a block got no vote. | See to the file's mode: it is read anew at the next such block or call.\n\
hs_signer | successor 1 Length | The file of --successor has not as many bytes as its replicas ask for. The file is as if it were not there. | Lay the right file down by renaming it into its place; no restart is needed.\n\
hs_signer | successor 2 Magic | The file of --successor does not begin as a committee. The file is as if it were not there. | Lay the right file down by renaming it into its place; no restart is needed.\n\
hs_signer | successor 3 Size | The file of --successor has a number of replicas that is not allowed. The file is as if it were not there. | Lay the right file down by renaming it into its place; no restart is needed.\n\
hs_signer | successor 4 Key K | Key K of the file of --successor is no public key. The file is as if it were not there. | Lay the right file down by renaming it into its place; no restart is needed.\n\
hs_signer | successor 5 SameKey J K | Key K of the file of --successor is the same as key J. The file is as if it were not there. | Lay the right file down by renaming it into its place; no restart is needed.\n\
hs_signer | successor 6 Weight R | Replica R of the file of --successor has the weight 0. The file is as if it were not there. | Lay the right file down by renaming it into its place; no restart is needed.\n\
hs_signer | successor 7 KeyCount R | Replica R of the file of --successor has no key, more than four, or bytes behind its keys. The file is as if it were not there. | Lay the right file down by renaming it into its place; no restart is needed.\n\
hs_signer | successor not mine | With --renew: the replica has in FILE, or in a committee that was shown, neither its present keys nor those that were made behind them: FILE is as if it were not there, and what was shown is refused. | Make the keys with keygen --behind in DIR, or rename their folder to DIR/next-ID; else make FILE anew.\n\
hs_signer | successor never enough | With --renew: the replicas that --ask names could never be enough under FILE, so it is as if it were not there. | Start the signer with --ask of all others.\n\
hs_signer | successor 8 OldKey K | Key K of the file of --successor is a key of this committee too: it would sign twice under one one-time key. The file is as if it were not there. | Have that replica make a new key in a new folder, and a new committee's file be made.\n\
hs_check, hs_tool, hs_show, hs_draw, hs_signer, hs_watch, hs_follow | fault usage | The words are not those of the manual page. | Put the words right.\n\
hs_signer, hs_watch, hs_follow, hs_draw | fault usage WORD | WORD is the first word that is not as the manual page has it: a path or a source is empty or begins with -, a value is not one that its option takes, or an option stands where none may, or is none. | Put that word right.\n\
hs_check | fault hex | Standard input is not two lines of hex digits. | Give committee and verdict as two lines of hex digits, or name two files.\n\
hs_tool keygen | fault hex | SEED is not 96 hex digits. | Put SEED right.\n\
hs_check, hs_tool, hs_show, hs_draw, hs_signer, hs_watch, hs_follow | fault file PATH.. | The file can't be opened, read, made or written, or is there and must not be; of a replica's folder its lock may be held, or put-back says that its log was put back to a backup. | Look at the path, its mode and the disk. Never remove a replica's lock, and never write over a file in a replica's folder: the manual page says what was left.\n\
hs_tool replica | fault file PATH.. | Where PATH is DIR/disk-failed: a disk failed under the last signer on this folder, and whether its last vote was stored is open. | Mend or free the disk, mount its file system anew or restart the machine; then remove that file, and start again.\n\
hs_watch --export | fault file PATH.. | Where PATH is DIR/R-I-K-N: of log K of source I of replica R the part behind N frames is damaged, or what stands before it is missing or damaged. All else was given out, and of this log the frames in front of that, with no end mark; nothing of it where its first part is the one. | Audit what was given out: such a log reads as Cut. A part can't be mended: keep a copy of DIR, move the files R-I-.. out of it, and start the watch again, which reads the log from its source, as long as that has it.\n\
hs_check, hs_tool, hs_show, hs_draw, hs_signer, hs_watch, hs_follow | fault memory | Memory was refused. | Free memory, and look at the manual page for what was left.\n\
hs_check, hs_tool, hs_show, hs_draw, hs_signer, hs_watch, hs_follow | fault output | The lines could not be written, or not all. | Look at where standard output goes: a disk that is full, a pipe that was closed.\n\
hs_check, hs_tool, hs_show, hs_draw, hs_signer, hs_watch, hs_follow | fault committee 1 Length | The committee's file has not as many bytes as its replicas ask for. | Get the file from an operator you trust, and compare its chain id.\n\
hs_check, hs_tool, hs_show, hs_draw, hs_signer, hs_watch, hs_follow | fault committee 2 Magic | The file does not begin as a committee. | Name the committee's file, first.\n\
hs_check, hs_tool, hs_show, hs_draw, hs_signer, hs_watch, hs_follow | fault committee 3 Size | It has a number of replicas that is not allowed. | Get the file from an operator you trust, and compare its chain id.\n\
hs_check, hs_tool, hs_show, hs_draw, hs_signer, hs_watch, hs_follow | fault committee 4 Key K | Key K is no public key. | Get that replica's key.pub anew; of a committee's file get the file anew.\n\
hs_check, hs_tool, hs_show, hs_draw, hs_signer, hs_watch, hs_follow | fault committee 5 SameKey J K | Key K is the same as key J. | Two replicas handed in one key: get both anew from their operators.\n\
hs_check, hs_tool, hs_show, hs_draw, hs_signer, hs_watch, hs_follow | fault committee 6 Weight R | Replica R has the weight 0. | Give it a weight, or leave it out.\n\
hs_check, hs_tool, hs_show, hs_draw, hs_signer, hs_watch, hs_follow | fault committee 7 KeyCount R | Replica R has no key, more than four, or bytes behind its keys. | Get the file from an operator you trust, and compare its chain id.\n\
hs_follow | fault committee 8 OldKey K | Key K of the new committee is one of the old committee's keys, in a slot that may not keep it: it would sign twice under one one-time key. | Have that replica make a new key in a new folder, and make the committee's file anew.\n\
hs_follow | fault renewal N NAME | The file of --renewal is no renewal. | Name the file next.hsr of a signer that went over from OLD, or get it anew.\n\
hs_tool audit, hs_draw, hs_watch, hs_follow | fault source I | The word of source I, counted from 0, is not R=file:PATH or R=tcp:ADDRESS. | Put that word right.\n\
hs_tool audit, hs_draw, hs_watch, hs_follow | fault collision | Two different headers have one id: SHA-256 is broken, and no audit of these sources holds. | Keep all sources.\n\
hs_watch | fault state | The folder of --state has logs of another chain, or logs and no file that says of which; or, with --export, nothing of that source. | Name another folder, or the committee's own; R-I is how the names of its files begin.\n\
hs_signer | fault disk PATH.. | A disk failed under the last signer on this folder, or while this one opened it, as the file at PATH says: whether the last vote was stored is open, and a start before the disk was seen to may use a one-time key twice. | Mend or free the disk, mount its file system anew or restart the machine; then remove the file at PATH, and start again.\n\
hs_tool replica | fault store 2 | The committee has no replica R, or a disk failed while a store was recovered. | Compare R and COMMITTEE, and see to the disk before you start it again.\n\
hs_signer | fault store 2 | The committee has no replica R. | Compare R and COMMITTEE.\n\
hs_tool migrate | fault store 2 | The disk failed. | Look at the disk.\n\
hs_tool replica, hs_signer | fault store 3 | The keys of the folder are not those of replica R in their order, or log.hsj is no journal. | Compare R, COMMITTEE and DIR. Never rename seeds to make them fit.\n\
hs_tool migrate | fault store 3 | OLD is no journal. | Name the replica's log.hsj.\n\
hs_tool export | fault store 3 | LOG is no journal. | Name the replica's log.hsj.\n\
hs_tool replica, hs_signer, hs_tool migrate | fault store 4 | The log is damaged. | It can't be mended, and must not be replaced: see Backups in hs_tool-folder(1).\n\
hs_tool export | fault store 4 | LOG is damaged; OUT has the whole entries in front of the damage, and no end mark. | An audit reads OUT as Cut. See Backups in hs_tool-folder(1).\n\
hs_tool replica, hs_signer | fault store 5 | index.hsj is no index journal, or does not go with the keys or the log. | It can't be mended, and must not be replaced: see Backups in hs_tool-folder(1).\n\
hs_tool replica, hs_signer, hs_tool migrate | fault store 9 | An entry of the log is none, or has the form from before votes named their keys. | Look at the log with hs_show; a log of the old form is migrated by hs_tool migrate.\n\
hs_tool export | fault store 9 | LOG is an index journal. | Name the replica's log.hsj.\n\
hs_tool replica, hs_signer, hs_tool migrate | fault store 10 | The log's entries are not in a legal order, or are of another committee. | Compare COMMITTEE and DIR.\n\
hs_tool replica, hs_signer | fault receipts | The votes that were given out are not those of the log. It can't come: it is a bug. | Stop the replica, keep its folder as it is, and report it.\n\
hs_tool renewal | fault endorsement I N NAME | Endorsement I, counted from 0 among the words, is refused by the test of this number and name. | Get it anew from that replica's signer (POST /endorse); 6 Chain: it was made in another chain, so compare COMMITTEE.\n\
hs_tool renewal | fault renewal 3 Twice J K | Endorsements J and K, counted from 0 among the words, are of one replica. | Leave one out; where they differ, ask that replica's operator.\n\
hs_tool renewal | fault renewal 5 TooFew | The replicas that endorsed weigh less than a quorum. | Get the endorsements of more replicas.\n\
hs_tool replica, hs_signer, hs_watch | fault listen | The address can't be listened on. | Put it right, or see which program listens there (ss -ltnp).\n\
hs_signer, hs_watch | fault threads | A thread can't be made. | Look at the limits of processes and of memory.\n\
hs_tool replica, hs_signer | voted N HEX | The replica voted for the block: entry N of its log, synced before this was told. Where the block came before, hs_signer tells the vote that it gave it then. | Send the vote on. Its bytes stay the replica's only vote in that view.\n\
hs_tool replica, hs_signer | voted N HEX committed ID | As voted; and by what this process was told the block ID is committed. | Send the vote on, and apply what ID's chain has.\n\
hs_tool replica | raised | The replica raised its lock, stored that, and gave the block no vote. | Nothing: it has voted in this view or a later one, gave the view up, or its lock forbids this vote.\n\
hs_signer | raised V ID | The replica raised its lock by the block ID of view V, stored that, and gave that block no vote. | Nothing: it has voted in this view or a later one, gave the view up, or its lock forbids this vote. It gives a view up by a timeout, by a block that hands over to another file than that of --successor, and, with --ask, before its first block.\n\
hs_tool replica | raised committed ID | As raised; and by what this process was told the block ID is committed. | Apply what ID's chain has.\n\
hs_signer | raised V ID committed ID | As raised V ID; and by what this process was told the block of the last ID is committed. | Apply what the chain of the last ID has.\n\
hs_tool replica | held | The block is held, and this call gave it no vote. | Nothing: the replica has voted in this view or a later one, gave the view up, or its lock forbids this vote.\n\
hs_signer | held V ID | The block ID of view V is held, and got no vote: the log has none on it, or could not be read. | Nothing: it has voted for another block in this view, or in a later one, gave the view up, or its lock forbids this vote. It gives a view up by a timeout, and by a block that hands over to another file than that of --successor.\n\
hs_signer --ask | held V ID | Before its first block the signer gave up all views up to one above the greatest view of a good certificate in the others' logs: there a vote of it may stand that it forgot. | Nothing: it votes in later views. vote_view of GET /status is the last view that it voted in or gave up.\n\
hs_signer | held | To GET /block/ID: the block is held. | Deliver blocks on it.\n\
hs_tool replica | held committed ID | As held; and by what this process was told the block ID is committed. | Apply what ID's chain has.\n\
hs_signer | held V ID committed ID | As held V ID; and by what this process was told the block of the last ID is committed. | Apply what the chain of the last ID has.\n\
hs_tool replica, hs_signer | timeout V | Until it ends the replica gives no vote in a view up to V. | Send it again after a start: it is not stored.\n\
hs_signer | refused log 2 Device | The disk failed where the log was read: for its vote in the view of the block's certificate, in the view of GET /vote, or for GET /log. Nothing was delivered, and the desk is not stopped. | See to the disk, and ask again.\n\
hs_signer | refused log 9 BadEntry | What the log gave, for its vote in the view of the block's certificate or of GET /vote, is no vote, not the one that was stored, or not a good one. Nothing was delivered, and the desk is not stopped. | The disk gives other bytes than were written: see to it, and look at the log with hs_show.\n\
hs_signer | refused header 1 Length | There are not 84 bytes. | Send the header's 84 bytes, and behind them the certificate of its parent.\n\
hs_signer | refused header 2 Magic | The header does not begin with HSB1. | Build the header as FORMATS.md says.\n\
hs_signer | refused header 3 ViewOrder | The parent's view is not below the block's. | Build the header as FORMATS.md says.\n\
hs_tool replica | refused header N | The first 84 bytes are no header: 1 Length, 2 Magic, 3 ViewOrder. | Build the header as FORMATS.md says.\n\
hs_tool replica | refused certificate N | The rest is no certificate: 1 Memory, 2 Length, 3 Order, 4 Count. | Build the certificate as FORMATS.md says.\n\
hs_signer | refused certificate 1 Memory | Memory was refused. | Send the block again.\n\
hs_signer | refused certificate 2 Length | What stands behind the header, or is posted to /certificate, has not as many bytes as its votes ask for. | Build the certificate as FORMATS.md says.\n\
hs_signer | refused certificate 3 Order | The numbers of the replicas do not rise. | Put the votes in the order of their replicas.\n\
hs_signer | refused certificate 4 Count | It has more than 31 votes, or none with a view above 0, or some with view 0. | Build the certificate as FORMATS.md says.\n\
hs_tool replica | refused block N | The certificate does not fit the block, or is not good: 1 WrongBlock, 2 Count, 3 UnknownReplica, 4 Signature, 5 UnknownKey. | Drop the block: its leader is faulty, or is of another committee.\n\
hs_signer | refused block 1 WrongBlock | The certificate is not on the parent's id and view that the header names; to POST /certificate: it is of view 2^64 - 1, on which no block can be. | Drop the block, or the certificate that was posted alone.\n\
hs_signer | refused block 2 Count | The votes are no quorum, or are more than there are replicas. | Drop the block, or the certificate that was posted alone.\n\
hs_signer | refused block 3 UnknownReplica | A vote is of a replica that the committee lacks. | Drop the block, or the certificate that was posted alone.\n\
hs_signer | refused block 4 Signature | A vote does not verify. | Drop the block, or the certificate that was posted alone, and look which vote it is.\n\
hs_signer | refused block 5 UnknownKey | A vote names a key that its replica has not. | Drop the block, or the certificate that was posted alone.\n\
hs_tool replica | refused core N | The replica can't take the block: 1 Memory, 2 UnknownParent, 3 ParentView, 4 TreeFull, 5 SameId. | With 2 deliver the parent first, and then the block again.\n\
hs_signer | refused core 1 Memory | Memory for one more header was refused. | Send the block again.\n\
hs_signer | refused core 2 UnknownParent | No block of the parent's id is held. | Deliver the parent first, and then the block again.\n\
hs_signer | refused core 3 ParentView | The parent has another view than the header says. | Drop the block.\n\
hs_signer | refused core 4 TreeFull | 65,536 headers are held. | Pass on only what came from the leader of its view; the process holds fewer after a start.\n\
hs_signer | refused core 5 SameId | Another header has this id: SHA-256 is broken. | Keep both headers.\n\
hs_signer | refused vote 1 UnknownReplica | The committee has no such replica. | Drop the vote.\n\
hs_signer | refused vote 2 Signature | The vote does not verify under the key that it names. | Drop the vote.\n\
hs_signer | refused vote 3 UnknownKey | The replica has no key of that number. | Drop the vote.\n\
hs_signer | good | The vote verifies under the replica's key; to POST /certificate: a quorum's votes are in the certificate, and each verifies, or it is that of genesis. | Count the vote, or take the certificate over.\n\
hs_signer | ok | The process answers; at /health also that log, keys, disks and places for headers allow a vote. | Nothing.\n\
hs_tool replica | desk 1 | Memory was refused; nothing was stored. | Send the block again.\n\
hs_tool replica | desk 3 | The replica's keys are spent. | A new committee, of new keys, is due.\n\
hs_tool replica | desk 4 | The log is full: it has 4,096 entries. | A new committee is due.\n\
hs_tool replica | desk 5 | A disk failed in this call: whether the vote was stored is open, and the replica does nothing more. | Mend or free the disk, mount its file system anew or restart the machine; then start the replica again.\n\
hs_tool replica | desk 6 | A disk failed in an earlier call. | Mend or free the disk, mount its file system anew or restart the machine; then start the replica again.\n\
hs_signer | desk 1 Memory | Memory was refused; nothing was stored. | Send the block again.\n\
hs_signer | desk 3 KeySpent | The replica's keys are spent. | A new committee, of new keys, is due.\n\
hs_signer | desk 4 LogFull | The log is full: it has 4,096 entries. | A new committee is due.\n\
hs_signer | desk 5 Device | A disk failed in this call: whether the vote was stored is open. This process delivers and votes no more, and wrote disk-failed, so that none is started before an operator removes it. | Mend or free the disk, mount its file system anew or restart the machine; then remove disk-failed, and start the signer again; ask GET /vote/V.\n\
hs_signer | desk 6 Stopped | A disk failed in an earlier call, and nothing was done. This process delivers and votes no more. | Mend or free the disk, mount its file system anew or restart the machine; then remove disk-failed, and start the signer again.\n\
hs_signer | stopped desk 5 | A disk failed under a block: the desk is stopped. The process goes on answering, delivers and votes no more, and wrote disk-failed, so that none is started before an operator removes it. | Mend or free the disk, mount its file system anew or restart the machine; then remove disk-failed, and start the signer again.\n\
hs_signer | disk-failed not written | A disk failed under a block or at the start, and the file that keeps a start from being made could be written neither into DIR nor beside the socket. | Start no signer on this folder before the disk was seen to: nothing else keeps it from using a one-time key twice.\n\
hs_tool replica | bad line | The line is neither a block nor a timeout in its one spelling; a line that ends in CRLF is none. | Put the line right.\n\
hs_tool replica, hs_signer | closed N | The input ended; the log has N entries. | Nothing.\n\
hs_tool replica | served FRAMES | A request for the log was answered with so many entries. | Nothing: that they arrived is not known.\n\
hs_tool replica | serve fault 1 | Memory was refused, and nothing was sent. | Free memory.\n\
hs_tool replica | serve fault 2 | The disk failed while the log was sent. | Look at the disk.\n\
hs_tool replica | serve fault 3 | The client went away, took nothing for 30 seconds, or was too slow. | Let the auditor ask again.\n\
hs_tool replica | serve fault 4 | No connection could be had, or no request came in time. | Let the auditor ask again; look at the limit of open files.\n\
hs_tool replica | serve fault 5 | What came is no request, or names another chain. | See who connects there.\n\
hs_tool replica | serve fault 6 | A disk failed before, and nothing was sent. | See to the disk.\n\
hs_signer | approved | FILE of --successor, as it is now, or a committee that was shown to renew this one, is what a block with this payload hands over to: such a block may be voted for. | Nothing.\n\
hs_signer | not approved | FILE of --successor, as it is now, is another committee's or as if it were not there, or there is no --successor, and no committee with this payload was shown to renew this one: a block that hands over with this payload gets no vote. | Lay the right file down by renaming it into its place, if the ledger is to be handed over to that committee; standard error says why a file is not taken.\n\
hs_signer | refused call 1 NoSuchCall | There is no call of this path. | See the table of calls in hs_signer(1).\n\
hs_signer | refused call 2 Method | The path has other methods, which allow names. | Use one of these.\n\
hs_signer | refused call 3 Number | A number is not in its one spelling or out of range, or a parameter is not known or there twice, or the chain of a part of the log is no id. | Write it without sign and leading zeros, and an id in 64 digits.\n\
hs_signer | refused call 4 Host | Over TCP: Host is missing, there twice, or a name that is not allowed. | Call by localhost or an IP address, or allow the name by --host.\n\
hs_signer | refused call 5 Origin | Over TCP: a page in a browser called. | Call from a program.\n\
hs_signer | refused call 6 ContentType | Over TCP: what is posted is not application/octet-stream. | Send that header.\n\
hs_signer | refused call 7 Far | The view lies further above the vote view than is allowed; nothing was delivered. | Deliver the blocks between, or start with a greater --furthest once you know why.\n\
hs_signer | refused call 8 NoVote | The log has no vote in this view. | Nothing: the replica did not vote there.\n\
hs_signer | refused call 9 Target | The target is not a path, or has a query that the call does not take, or an id or a payload that is not 64 digits in lower case. | Put it right.\n\
hs_signer | refused call 10 NotHeld | No block of this id is held. | Deliver it, its parents first.\n\
hs_signer | refused call 11 Length | A vote has not 1,495 bytes, a timeout has a body, a call to go over has not as many bytes as it names, or blocks are none, more than 64, or not each after its length. | Put it right.\n\
hs_signer | refused call 12 Chain | The call names another chain than the one that the signer stands in, or, with --renew, none; nothing was done. | Drop it if that chain ended; else ask the signer of that chain.\n\
hs_signer | over CHAIN | The signer has gone over to this chain: it votes in the one before no more. | Nothing: name this chain in calls from here on.\n\
hs_signer | refused over 1 NoCommit | This process told no block as committed that has a handover block in its chain. | Hand in the block that commits again, then repeat the call.\n\
hs_signer | refused over 2 OtherFile PAYLOAD | The handover block that was committed has this payload, which names another file. | Send the file that the payload names.\n\
hs_signer | refused over 3 NotMine | The replica has in that file neither its keys of this chain nor those that were made behind it. | Look who made the keys: somebody else has them, or DIR was put back.\n\
hs_signer | refused proof 2 Short | The light proof has fewer than 8 bytes. | See that the body has each part after its length: the renewal, the file, the light proof.\n\
hs_signer | refused proof 3 Magic | The light proof does not begin with HSH1. | See that the body has each part after its length: the renewal, the file, the light proof.\n\
hs_signer | refused proof 4 Number | The light proof does not name 2 to 4,096 headers after the first. | Fetch the step anew, from another server.\n\
hs_signer | refused proof 5 Length | The light proof has not as many bytes as its numbers ask for. | Fetch the step anew, from another server.\n\
hs_signer | refused proof 6 Header | A header of the light proof is none. | Fetch the step anew, from another server.\n\
hs_signer | refused proof 7 Order | The replicas of a certificate in the light proof do not rise. | Fetch the step anew, from another server.\n\
hs_signer | refused proof 8 Count | A certificate in the light proof has more than 31 votes, or none, or some of view 0. | Fetch the step anew, from another server.\n\
hs_signer | refused handover 1 NoHandover | The first block of the light proof does not hand over. | Fetch the step anew, from another server.\n\
hs_signer | refused handover 2 Views | The last three blocks of the light proof are not in views in a row. | Fetch the step anew, from another server.\n\
hs_signer | refused handover 3 Parent | A block of the light proof is not on the one before it. | Fetch the step anew, from another server.\n\
hs_signer | refused handover 4 OtherBlock | A certificate of the light proof is not on its block. | Fetch the step anew, from another server.\n\
hs_signer | refused handover 5 UnknownReplica | A certificate of the light proof names a replica that this committee does not have. | It is of another committee: send the light proof of the chain that the signer is in.\n\
hs_signer | refused handover 6 TooFew | A certificate of the light proof has votes of less than a quorum. | Fetch the step anew, from another server.\n\
hs_signer | refused handover 7 Vote | A vote in the light proof is not good under this committee. | It may be of another committee: send the light proof of the chain that the signer is in.\n\
hs_signer | stopped over | What the new chain needs, as the keys that were endorsed, or the word that the signer goes over, can't be read or stored. | See to DIR and its disk, then start the signer again.\n\
hs_signer | making keys | The replica's next keys are still made, or looked for behind a start: with --renew this is beside the votes, and takes some seconds. Nothing was done. | Ask again.\n\
hs_signer | stopped next | The replica's next keys can't be read or made, or are not the ones that it endorsed, or a disk failed while the endorsement was stored. It votes on in this chain. | See to DIR/next-ID and its disk, and start the signer again. Never put a folder of keys back from a backup: where the keys are lost the replica comes back by hand, with new keys in the file of --successor.\n\
hs_signer | next keys not made | The replica's next keys could not be made: the random source or the disk failed, or DIR has no room. It votes on in this chain. | See to DIR and its disk, and start the signer again.\n\
hs_signer | seeds not removed | With --renew: a seed of keys that the replica has in no committee any more could not be removed. Nothing is stopped, and it is tried again at the next going over or start. | See to the mode of DIR and to its disk: who steals an old seed can sign for a committee of the past.\n\
hs_signer | logs not removed | With --keep: the log of a chain that was left could not be removed. Nothing is stopped, and it is tried again at the next going over or start. | See to the mode of DIR and to its disk.\n\
hs_signer | seeds and logs kept until compared | The signer went over by a light proof that it was shown, and nobody compared the lineage since: it removes no seeds and no logs. Nothing is stopped. | Compare the newest chain id with somebody you trust, then start the signer with --compared ID.\n\
hs_signer | renews PAYLOAD new S of W | The committee of that file renews this one: its new slots weigh S of the whole weight W. From now on a block that hands over with this payload may be voted for. | Nothing.\n\
hs_signer | refused renewal 2 Short | The renewal has fewer than 78 bytes. | See that the body has the renewal's length in front, and the whole renewal.\n\
hs_signer | refused renewal 3 Magic | The renewal does not begin with HSR1. | Put it together anew of the endorsements.\n\
hs_signer | refused renewal 4 View | The certificate in the renewal is not of view 1. | Put it together anew of the endorsements.\n\
hs_signer | refused renewal 5 Length | The renewal has not as many bytes as its signatures ask for. | Put it together anew of the endorsements.\n\
hs_signer | refused renewal 6 Order | The replicas of the renewal's signatures do not rise. | Put it together anew, by rising replica.\n\
hs_signer | refused renewal 7 Count | The renewal has no signatures, or more than 31. | Put it together anew of the endorsements.\n\
hs_signer | refused successor 1 Chain | The renewal names another chain than this one. | Gather endorsements of this chain.\n\
hs_signer | refused successor 2 File | The renewal names another file. | Send the file that it was put together for.\n\
hs_signer | refused successor 3 Format | The file has another format than that of this committee. | Make the file of this committee's, with the endorsed keys in their places.\n\
hs_signer | refused successor 4 Size | The committee has not as many replicas as this one. | Make the file of this committee's, with the endorsed keys in their places.\n\
hs_signer | refused successor 5 Weight R | Replica R has another weight there. | Make the file of this committee's, with the endorsed keys in their places.\n\
hs_signer | refused successor 6 KeyCount R | Replica R has not as many keys there. | Make the file of this committee's, with the endorsed keys in their places.\n\
hs_signer | refused successor 7 KeyId R | Replica R has other keys there, and one of them has not the id that is bound to its place. | Leave its slot as it is in this committee.\n\
hs_signer | refused successor 8 Unsigned R | Replica R has other keys there, and the renewal has no signature of it. | Add its endorsement, or leave its slot as it is.\n\
hs_signer | refused successor 9 KeyNumber R | Replica R has other keys there, and the renewal's signature of it names a key that it has not. | Leave its slot as it is, and take no more endorsements from who handed this one on.\n\
hs_signer | refused successor 10 Signature R | Replica R has other keys there, and the renewal's signature of it is not good. | Leave its slot as it is, and take no more endorsements from who handed this one on.\n\
hs_signer | refused successor 11 TooFew | The slots with other keys weigh less than a quorum. | Gather more endorsements.\n\
hs_signer | refused successor 12 NotMine | This replica has there neither its present keys nor those that it endorsed. | Look who endorsed for it: somebody else has its keys, or DIR was put back.\n\
hs_signer | fault lineage CHAIN | What lies in the folder of that chain is not what DIR's words say, or COMMITTEE is not the file that DIR began with. | Start with the first committee's file. If that is so, something was removed or copied in DIR: the replica counts as faulty.\n\
hs_signer | fault lineage | DIR's words lead through more than a million committees. | Nothing is to be done with such a DIR.\n\
hs_signer | listening calls PLACE | It takes calls there. | Nothing.\n\
hs_signer | listening read ADDRESS | It answers calls that only read there. | Nothing.\n\
hs_signer | listening log ADDRESS | It hands out its log there. | Nothing.\n\
hs_signer --verbose | =POST TARGET STATUS.. | A call was answered with this status. What stands behind it is the answer, or how many bytes it has. | Ask for the answer alone: hs_show --explain and the words behind the status.\n\
hs_signer --verbose | =GET TARGET STATUS.. | A call that only reads was answered with this status. What stands behind it is the answer, or how many bytes it has. | Ask for the answer alone: hs_show --explain and the words behind the status.\n\
hs_signer --verbose | =HEAD TARGET STATUS.. | As a call by GET, without its answer. | Nothing.\n\
hs_tool keygen | key HEX | The public key, in 112 digits. | Tell the others its key.pub, and compare it by another way.\n\
hs_tool committee, hs_tool weighted | chain HEX | The chain id of the committee that was written. | Compare it with the other operators by telephone.\n\
hs_tool migrate | migrated N | The log was carried over; it has N entries. | Put NEW in the place of log.hsj, as hs_tool-migrate(1) says.\n\
hs_tool export | exported N | The export has N entries. | Give OUT to who audits.\n\
hs_watch --export | exported LOG frames F | LOG is R-I-K: log K that was kept of source I of replica R is at OUT/R-I-K.hsl, and has F frames. | Audit it, or give it to who audits.\n\
hs_tool audit | frames COUNT.. | At a terminal: how many frames of each source have come so far. | Wait.\n\
hs_tool audit | checks N | At a terminal: how many signatures were checked so far. | Wait.\n\
hs_tool audit, hs_follow | source I has no log of this chain | The server of source I, counted from 0, has no log of this committee's chain: nothing of it was read. | See that the address is that of a replica of this committee, and that the committee's file is the right one; or the chain was left, and its log was removed (hs_signer --keep).\n\
hs_tool audit, hs_follow | source I was asked without naming the chain | The server of source I, counted from 0, closed without a byte when it was asked for the log of this chain, as versions before this one do, or a tunnel whose server is down, and was asked again without the chain's name: what came was judged as ever. | Have whoever runs that server take this version.\n\
hs_tool audit, hs_follow | source I replica R Whole frames F entries E | The log of source I came whole: F frames, of which E are log entries. | Nothing.\n\
hs_tool audit, hs_follow | source I replica R Cut frames F entries E | The log of source I ended early: what came was judged. | Get it again before you conclude anything.\n\
hs_tool audit, hs_follow | source I replica R Broken frames F entries E | What source I gave is no export, or does not end as one: what came before was judged. | Get it again.\n\
hs_tool audit, hs_follow | source I replica R TooLong frames F entries E | Source I gave more entries than a log has: the first 4,096 were judged. | Ask who serves it.\n\
hs_tool audit, hs_follow | source I replica R Failed frames F entries E | Source I could not be reached or read to its end. | See that its path or address is right, and get it again.\n\
hs_tool audit, hs_follow | commit V ID | It is proved that the block ID of view V was committed. | Nothing.\n\
hs_tool audit, hs_follow | conflict ID ID | Two conflicting blocks were committed: the chain forked. | Remove the culprits that are named, by the verdicts that hs_tool audit writes and everyone judges.\n\
hs_tool audit, hs_follow | no conflict | What was read proves no two conflicting commits; there may be culprits all the same. | Read the lines of the sources: a log that did not come whole, or was withheld, may prove one, and with the wrong committee's file nothing is ever found.\n\
hs_tool audit | culprit R rule K views V V | Replica R broke rule K by its votes in these views; its verdict is in OUTDIR. | Send OUTDIR/verdict-R.hsx to everyone who must agree.\n\
hs_follow | culprit R rule K views V V | Replica R broke rule K by its votes in these views. | hs_tool audit over the same sources writes the verdict.\n\
hs_tool audit, hs_follow | culprits N | So many replicas broke a rule in what was read. With 0 none was found in it: a log that was withheld may hold more. | Read the lines of the sources.\n\
hs_tool audit, hs_follow | culprits N weight S of W | So many replicas broke a rule, and weigh so much of the whole weight. | A conflict has more than a third of it. Read the lines of the sources.\n\
hs_tool audit, hs_follow | handover V ID committed, N commits after it | The committee hands its ledger over by the block ID of view V, and so many of the commits above are of blocks after it: these count for nothing. | Begin the new chain behind block ID.\n\
hs_follow | follows view V id ID | By what the logs prove the old committee handed its ledger over to NEW, in block ID of view V. | Go on with NEW.\n\
hs_follow | follows another view V id ID payload HEX | The old committee handed its ledger over to another file than NEW. | Get the file whose digest begins as the payload says, behind HSN1.\n\
hs_follow | follows none | The logs prove no handover. | Get more logs, or later ones.\n\
hs_tool renewal | slot S new | FILE has in slot S, a replica by its number, the keys that it endorsed. | Nothing.\n\
hs_tool renewal | slot S kept | FILE has the keys of COMMITTEE in slot S, a replica by its number: no endorsement of it was given. | Nothing, or get its endorsement.\n\
hs_tool renewal | renews PAYLOAD new S of W | FILE's committee renews COMMITTEE's by RENEWAL: its new slots weigh S of the whole weight W. A block that hands over to it has this payload. | Show both files to each signer (POST /successor).\n\
hs_follow | slot S new | OLD's keys signed for the keys that NEW has in slot S, a replica by its number. | Nothing.\n\
hs_follow | slot S kept | NEW has the keys of OLD in slot S, a replica by its number. | Nothing.\n\
hs_follow | slot S by hand | NEW has other keys than OLD in slot S, a replica by its number, and by the renewal no key of OLD signed for them. | Ask that replica's operator whether the keys are theirs.\n\
hs_follow | renews new S of W | NEW renews OLD by the renewal: its slots with other keys weigh S of the whole weight W. | Nothing.\n\
hs_follow | renews not: N NAME.. | NEW does not renew OLD by the renewal, by the test of this number and name, of this slot if there is one. What the lines above say of the handover stands. | Get the renewal of that handover. If operators made NEW, ask them.\n\
hs_follow, hs_show | step N chain ID new S of W | Step N of the lineage is good: a quorum of the committee before committed that ID's committee follows, and its slots with other keys, which weigh S of the whole weight W, were signed for. | Nothing.\n\
hs_follow, hs_show | step N chain ID by hand | Step N of the lineage is good, and its folder has no renewal: that somebody signed for the keys of slots that are not kept is not shown. | If nobody changed that committee by hand, fetch the step from another server; else ask the operators of these replicas whether the keys are theirs.\n\
hs_follow | followed N | All N steps in the folder are good, with those that were fetched: the last line of a step has the chain where you are. | Compare that chain id with others' where much depends on it being the newest.\n\
hs_follow | step N refused NUMBER NAME | Step N is refused, by the test of this number and name of REFUSALS.md, handover_steps. | Remove the files of this step and the later ones from the folder, and fetch them anew.\n\
hs_follow | step M is there without step N | The committee's file of step N is not in the folder, and that of step M is. | Put the files of the steps between into the folder, or remove those of step M and after it.\n\
hs_show | step N slot R new | A key of the replica in the committee before signed for its keys after step N. | Nothing.\n\
hs_show | step N slot R kept | The replica has the same keys after step N as before. | Nothing.\n\
hs_show | step N slot R by hand | The replica has other keys after step N, and it is not shown that anybody signed for them. | Ask its operator whether the keys are theirs.\n\
hs_show | step N slot R absent | The committee of step N has no such replica. | The steps prove nothing of its keys from before.\n\
hs_show | fault lineage | Neither the first committee nor a good step of the lineage has the verdict's chain. | See by hs_follow --lineage how far the folder is good, and that the verdict is of this ledger.\n\
hs_watch | commit V ID | It is proved that the block ID of view V was committed. | Nothing.\n\
hs_watch | commits N before V ID | The round has more than 100 new commits: so many of them are not listed. The last 100 are, the first of which is the block ID of view V. | Nothing.\n\
hs_watch | handover V ID payload HEX committed, N commits after it | It is proved that the committee hands its ledger over, by the block ID of view V, and that so many blocks after it are committed by now. | See by hs_follow that the payload names the file that you approved.\n\
hs_watch | conflict ID ID | Two conflicting blocks were committed: the chain forked. | Stop what relies on the ledger, and send the verdicts to everyone who must agree to a removal.\n\
hs_watch | culprit R rule K views V V PATH.. | Replica R broke rule K by its votes in these views; the verdict is at PATH. | Send the verdict to everyone who must agree to the removal.\n\
hs_watch | culprit R kept PATH.. | A verdict on replica R was there at the start. | Send it to everyone who must agree to the removal.\n\
hs_watch | source I replica R STATUS frames F entries E | The log of source I ends otherwise than it did. | With Failed, Cut or Broken see that its server runs.\n\
hs_watch | source I replica R STATUS frames F entries E log LOG | A log of source I, which has more than one, ends otherwise than it did. | With Failed, Cut or Broken see that its server runs.\n\
hs_watch | went-back I replica R | The log of source I went back: its replica may have been put back to a backup. | Ask its operator. It accuses nobody.\n\
hs_watch | beyond I replica R | Source I gave a fifth log that fits none of the four before. | Ask its operator.\n\
hs_watch | lost N | So many lines were dropped: source, went-back, no-log and unnamed since 1,000 lines waited to be read, others only since memory was refused. | See that what reads the lines keeps up; the page of --listen tells how each source stands.\n\
hs_watch | listening ADDRESS | What the watch knows is told over HTTP at this address of its machine. | Open it in a browser there; from another machine take ssh -L, or a proxy with TLS and a password.\n\
hs_watch /health | ok | The watch goes its rounds, and all verdicts and parts of logs are stored. | Nothing.\n\
hs_watch /health | late | Its last round is older than 30 seconds. | See whether the process runs, and start it again.\n\
hs_watch /health | unstored | A verdict is not stored, and is tried again each round; or, with --state, a part of a log is not stored, or one that was kept is damaged. | The lines on standard output name it. Make room in OUTDIR; the verdict is at /verdict-R.hsx meanwhile. Of a part see hs_show --explain TIME round N unstored PATH.\n\
hs_watch over HTTP | refused method | It answers GET and HEAD alone. | Use one of these.\n\
hs_watch over HTTP | refused host | Host is a name that is not allowed, or, in HTTP/1.0, is missing. | Ask by localhost or an address, or allow the name by --host.\n\
hs_watch over HTTP | no such page | Nothing is told at this path; /fork.svg is there once something was audited, and /verdict-R.hsx once R is a culprit. | See the table of paths in hs_watch(1).\n\
hs_watch | no-log I replica R | The server of source I says that it has no log of the committee's chain: what it gives is Broken. | See that the address is that of a replica of this committee, and that the committee's file is the right one; or the chain was left, and its log was removed (hs_signer --keep): begin the watch anew from a later committee's file.\n\
hs_watch | unnamed I replica R | The server of source I closed without a byte when it was asked for the log of that chain, as versions before this one do, or a tunnel whose server is down, and is asked without the chain's name. | Have whoever runs that server take this version.\n\
hs_watch | set-aside I replica R | 64 votes of source I were not good; no more of it is read. | It is of another committee or replica, or its server lies.\n\
hs_watch | unstored PATH.. | A verdict, or with --state a part of a log, or with --lineage the files of committee N as DIR/N, can't be stored there, or something else stands there; of a part at the start: it is damaged, or does not go on where its log ends, and is not read. | Look at OUTDIR, the folder of --state, and the disk. A verdict is tried again each round; of a part's source nothing more is stored until the next start. Of a damaged part see hs_show --explain fault file DIR/R-I-K-N.\n\
hs_watch | stands N chain ID | With --lineage: the watch begins with committee N, of this chain, or goes on with it; 0 is that of COMMITTEE. | Nothing.\n\
hs_watch | goes-over N chain ID new S of W | With --lineage: the ledger was handed over, and the watch goes over to committee N, of this chain; its slots with new keys weigh S of W, and the keys of the committee before signed for them. | Nothing.\n\
hs_watch | goes-over N chain ID by hand | With --lineage: the ledger was handed over, and the watch goes over to committee N, of this chain; the source gave no renewal by which the keys of the committee before signed for its new ones. | Where nobody changed the committee by hand, get the renewal, next.hsr, from a signer, and judge it: hs_follow --renewal.\n\
hs_watch | wrong-next I replica R | With --lineage: what source I, counted from 0, gave as the next committee's file and renewal is not good. Another source is asked. | Ask the operator of replica R why its signer hands out another committee.\n\
hs_watch | stays I replica R | With --lineage: source I, counted from 0, has no log of the chain to which the watch went over, and others have: its replica stayed behind, or its signer hands out no more than an old chain. | Ask the operator of replica R: its signer has to run with --renew, and its ledger to call POST /over.\n\
hs_show | file PATH.. | What follows is said of this file. | Nothing.\n\
hs_show | unknown | The file is of no kind that hs_show(1) lists; of --explain: no program prints such a line. | Look for a slip in the path, or in the line.\n\
hs_show | refused committee 1 Length | It begins as a committee's file, and has not as many bytes as its replicas ask for. | It is no committee's file: get it from an operator you trust, and compare its chain id.\n\
hs_show | refused committee 2 Magic | It does not begin as a committee's file. | It is no committee's file: get it from an operator you trust, and compare its chain id.\n\
hs_show | refused committee 3 Size | It begins as a committee's file, and has a number of replicas that is not allowed. | It is no committee's file: get it from an operator you trust, and compare its chain id.\n\
hs_show | refused committee 4 Key K | It begins as a committee's file, and its key K is no public key. | It is no committee's file: get it from an operator you trust, and compare its chain id.\n\
hs_show | refused committee 5 SameKey J K | It begins as a committee's file, and its key K is the same as key J. | It is no committee's file: get it from an operator you trust, and compare its chain id.\n\
hs_show | refused committee 6 Weight R | It begins as a committee's file, and its replica R has the weight 0. | It is no committee's file: get it from an operator you trust, and compare its chain id.\n\
hs_show | refused committee 7 KeyCount R | It begins as a committee's file, and its replica R has no key, more than four, or bytes behind its keys. | It is no committee's file: get it from an operator you trust, and compare its chain id.\n\
hs_show | refused verdict 1 Short | It begins as a verdict, and has fewer than 39 bytes. | It is no verdict: get the file anew.\n\
hs_show | refused verdict 3 Kind | It begins as a verdict, and its kind is neither 1 nor 2. | It is no verdict: get the file anew.\n\
hs_show | refused verdict 4 Length | It begins as a verdict, and has not as many bytes as its kind asks for. | The file was cut or lengthened: get it anew.\n\
hs_show | refused journal 3 NotAJournal | It begins as a journal, and the eight bytes of its head are others. | It is none: look for a slip in the path.\n\
hs_show | refused journal 4 Damaged | A journal that was cut or changed. | It can't be mended, and must not be replaced: see Backups in hs_tool-folder(1). hs_tool export saves what stands in front of the damage of a log.\n\
hs_show | refused indices 5 BadEntry | A journal that begins as one of taken indices, and is none, or is damaged. | It can't be mended, and must not be replaced: see Backups in hs_tool-folder(1).\n\
hs_show | refused endorsement 1 Short | It begins as an endorsement, and has fewer than 39 bytes in front of the number of the key and the signature, as a statement has that nobody signed. | It is no endorsement: get the file anew.\n\
hs_show | refused endorsement 3 Count | It begins as an endorsement, and its statement does not name 1 to 4 keys. | It is no endorsement: get the file anew.\n\
hs_show | refused endorsement 4 Length | It begins as an endorsement, and has not as many bytes as its keys ask for. | The file was cut or lengthened: get it anew.\n\
hs_show | refused endorsement 5 Key | It begins as an endorsement, and one of its next keys is no public key. | It is no endorsement: get the file anew.\n\
hs_show | refused renewal 2 Short | It begins as a renewal, and has fewer than 78 bytes. | It is no renewal: get the file anew.\n\
hs_show | refused renewal 4 View | It begins as a renewal, and its certificate is not of view 1. | It is no renewal: get the file anew.\n\
hs_show | refused renewal 5 Length | It begins as a renewal, and has not as many bytes as its signatures ask for. | The file was cut or lengthened: get it anew.\n\
hs_show | refused renewal 6 Order | It begins as a renewal, and the replicas of its signatures do not rise. | It is no renewal: get the file anew.\n\
hs_show | refused renewal 7 Count | It begins as a renewal, and has no signatures, or more than 31. | It is no renewal: get the file anew.\n\
hs_show | committee f F n N | A committee of N replicas that count once, F of which may be faulty. | Compare its chain id.\n\
hs_show | committee n N weight W quorum Q | A committee of N replicas that weigh W together, of which a quorum weighs Q. | Compare its chain id.\n\
hs_show | chain ID | The committee's chain id; of a verdict the one under which its votes were signed; of an endorsement or a renewal that of the committee before. | Compare it with the one that you were told by another way, such as the telephone.\n\
hs_show | say DIGITS.. | The chain id in groups of four digits. | Read it to another operator by telephone.\n\
hs_show | replica R key ID | The id of replica R's key, which another key may have too. | To compare the whole key see OPERATING.md, The first day.\n\
hs_show | replica R weight S key ID | How much replica R weighs, and the id of its key, which another key may have too. | To compare the whole key see OPERATING.md, The first day.\n\
hs_show | replica R weight S keys K ID.. | How much replica R weighs, how many keys it has, and their ids, which other keys may have too. | To compare a whole key see OPERATING.md, The first day.\n\
hs_show | votes R N | The keys of replica R sign so many votes in all. | Plan the next committee for when they are spent.\n\
hs_show | verdict rule K replica R | The file accuses replica R of breaking rule K (1, a double vote; 2, a lock violation). It is not judged here. | Judge it by hs_check COMMITTEE FILE.\n\
hs_show | vote PLACE view V id ID key K index I | A verdict's first or second vote: its view, the block's id, the number of the replica's key that signed it, and that of the one-time key. | With --committee its signature is checked.\n\
hs_show --committee | vote PLACE view V id ID key K index I good | A verdict's first or second vote, whose signature verifies under that key. | Nothing.\n\
hs_show --committee | vote PLACE view V id ID key K index I bad | A verdict's first or second vote, whose signature does not verify under that key, or names no key of the committee. | See that it is the right committee's file; under it the verdict proves nothing.\n\
hs_show | header PLACE view V id ID parent V ID | A header of a lock violation: of the first vote's block, of that block's parent, or of the second vote's block; with its own view and id, and its parent's. | Nothing.\n\
hs_show | headers unreadable | A header of a lock violation can't be read. | The verdict proves nothing.\n\
hs_show | export STATUS frames N | An export of so many whole frames. Whole: it ends as it must; Cut: it ends early; Broken: it is none, or does not end as one; TooLong: it has more frames than a log. | Where it is not Whole ask for that log again.\n\
hs_show | journal Closed entries N left M | A replica's journal of N entries, which has room for M more. | Have the next committee ready before M is 0.\n\
hs_show | entry K vote view V id ID key K index I MORE.. | Entry K of the log is a vote: the block's view and id, the number of the key that signed it, that of the one-time key, the parent's view and id, and who voted for the parent. With --committee `by R` says whose vote it is, `by none` that it is nobody's, and good or bad stands behind each voter. | Where votes are bad, or by none, see that it is the right committee's file.\n\
hs_show | entry K lock view V id ID parent V ID voters.. | Entry K of the log says that the replica raised its lock, without a vote of its own: by whose block, by view and id, its parent's, and who voted for the parent; with --committee good or bad stands behind each. | Where votes are bad see that it is the right committee's file.\n\
hs_show | entry K refused N NAME | Entry K is none, by this refusal of REFUSALS.md, log_format; the log of a correct replica has none such. With 3 Kind it may be of the form from before votes named their keys. | Ask for another copy of the log.\n\
hs_show | payload HEX | What the block of the entry above carries, as its ledger wrote it. | Nothing.\n\
hs_show | handover HEX | The block of the entry above hands its ledger over to another committee. | Compare the digits with the first 56 of the SHA-256 of that committee's file (sha256sum).\n\
hs_show | see hs_tool migrate | The log is of the form from before votes named their keys. | hs_tool migrate OLD NEW COMMITTEE carries it over.\n\
hs_show --committee | signatures N good G | Of N signatures that were checked G verify. | Where G is less, see that it is the right committee's file, and which line says bad or by none.\n\
hs_show | endorsement replica R keys N signed by key K | The file says which N next keys replica R has behind the committee of the chain below it, and that the replica signed this with its present key K. It is not judged here. | Compare the chain id with that of your committee.\n\
hs_show | next key K id ID root ROOT | Key K of the replica's next ones: its id, and the root of its tree. | Compare both with what hs_show says of that key's own file.\n\
hs_show | renewal signatures N | The file has so many signatures by which replicas of the committee of the chain below it name their next keys. It is not judged here. | Judge it beside the next committee's file by POST /successor of an hs_signer --renew.\n\
hs_show | next committee sha256 HEX | The SHA-256 of the file of the committee that comes next. | Compare it with that of the file (sha256sum).\n\
hs_show | signature replica R key K | The renewal has a signature of replica R, by key K of those that it has in the committee before. | Nothing.\n\
hs_show | signatures N not checked | An endorsement or a renewal has N signatures, and none was checked, with --committee neither. | Take none for good by this: POST /successor of an hs_signer --renew judges a renewal beside the file.\n\
hs_show | indices taken N left A B C D | All one-time keys below N are taken; so many are left to a replica with one, two, three or four keys. | Have the next committee ready before yours is 0.\n\
hs_show | key ID root ROOT | A public key: its id, and the root of its tree. | Nothing.\n\
hs_show | seed key ID | A file of 48 bytes is taken for a key's seed, of which no more than the key's id is shown. | Keep it secret, and never copy it."
}
