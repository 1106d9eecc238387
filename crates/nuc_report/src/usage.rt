/// Each line of a script, in a few words.
pub(crate) const USAGE: &str = "usage: nucleus run < SCRIPT\n\
    Runs the script, one line after another, and prints each step and then what the server, the clients and their folders hold.\n\
    C is a client's number, from 1, N the number of an operation. PATH is /NAME or /NAME/NAME and so on.\n\
    CONTENT is =BYTES, or *COUNT:HH for a byte that is repeated. A line that begins with # does nothing.\n\
    \x20 clients N             there are so many clients, 1 to 16; only as the first line, and without it there is one\n\
    What the user of a client does in its folder:\n\
    \x20 mkdir C PATH          makes a folder\n\
    \x20 write C PATH CONTENT  makes a file, or replaces its bytes\n\
    \x20 move C PATH PATH      moves what is at the first path to the second\n\
    \x20 remove C PATH         removes a file, or a folder with all that is in it\n\
    \x20 bit C PATH on|off     says whether a file may be executed\n\
    What is done at the server, on the web:\n\
    \x20 web mkdir PATH          makes a folder\n\
    \x20 web write PATH CONTENT  makes a file, or replaces its bytes\n\
    \x20 web move PATH PATH      moves what is at the first path to the second\n\
    \x20 web remove PATH         removes a file, or a folder with nothing in it\n\
    \x20 web bit PATH on|off     says whether a file may be executed\n\
    What a client does:\n\
    \x20 sync C            syncs until nothing is left to be done\n\
    \x20 sync C reverse    the same, with the operations of each batch from the last to the first\n\
    \x20 list C            lists its folder\n\
    \x20 scan C            takes the listing in\n\
    \x20 watch C           takes in one change that its user made\n\
    \x20 pull C            asks the server for what is new\n\
    \x20 plan C            plans what is to be done next\n\
    \x20 start C N         starts a planned operation\n\
    \x20 take C N          carries out an operation that was started\n\
    \x20 done C N          notes how an operation ended that was carried out\n\
    \x20 restart C         forgets what it has under way\n\
    \x20 fail C K          from now on, the K-th call on its folder fails\n";
