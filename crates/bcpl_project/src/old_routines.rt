//! What routines of old libraries did. This is from accounts and manuals of their time, as far as we know.

/// On each line a name in upper case, and what it was: first those of Tripos for commands and tasks, then those for files, those
/// of several systems, and those of the BBC Microcomputer and of the Alto. It is one text, since a long table is dear to prove.
const ROUTINES: &str = "\
RDARGS Tripos: read the command's arguments by a key string; EXTHDR has RDARGS
RDITEM Tripos: RDITEM(V, N) read an item of the command line into V, and returned its kind
FINDARG Tripos: FINDARG(KEYS, W) returned the number of keyword W in the key string, or -1
CONSOLETASK Tripos: a manifest, the number of the console's task
SENDPKT Tripos: sent a packet to a task or device, and waited for the reply; there are no tasks here
QPKT Tripos: sent a packet without waiting; there are no tasks here
TASKWAIT Tripos: waited for the next packet; there are no tasks here
PKTWAIT Tripos: a routine of the user that waited for a packet; there are no tasks here
RETURNPKT Tripos: sent a packet back; there are no tasks here
CREATETASK Tripos: made a task of segments; there are no tasks here
DELETETASK Tripos: ended a task; there are no tasks here
TASKID Tripos: a global, the number of the task itself
ENDTASK Tripos: ended the task and unloaded its code; write FINISH
DELAY Tripos: waited a number of ticks; leave it out
LOADSEG Tripos: loaded code from a file; link the file instead
UNLOADSEG Tripos: freed loaded code; leave it out
GLOBIN Tripos: set the globals of loaded code; linking does that
CALLSEG Tripos: loaded a file and called its START; link the file, and call a routine of it
RESULT2 Tripos: a global with a second result, mostly the reason of a failure; declare it by GLOBAL, and expect 0
RETURNCODE Tripos: a global of commands, the status at the end; STOP(N) of EXTHDR drops it
ROOTNODE Tripos: the address of the system's data, a manifest; there is no system here
COPYDIR Tripos: copied the lock on a folder; there are no folders here
CLI Tripos: CLI.INIT and others are globals of the command interpreter
TESTFLAGS Tripos: tested and cleared the flags by which a user breaks a program; EXTHDR has TESTFLAGS
SETFLAGS Tripos: set flags of a task; leave it out
FAULT Tripos: wrote what the number of a failure means; write a message
ABORT stopped the program with a number, for the debugger; write a message, then STOP(20) or FINISH
RETURN.SEVERE Tripos: a manifest, the status 20 of a command; declare it by MANIFEST, and STOP drops it
RETURN.HARD Tripos: a manifest, the status 10 of a command; declare it by MANIFEST, and STOP drops it
RETURN.SOFT Tripos: a manifest, the status 5 of a command; declare it by MANIFEST, and STOP drops it
LOCATEOBJ Tripos: found a file or folder and took a lock on it; streams are found by FINDINPUT
LOCATEDIR Tripos: found a folder and took a lock on it; there are no folders here
FREEOBJ Tripos: gave a lock back; leave it out
CURRENTDIR Tripos: a global, the lock on the current folder; there are no folders here
DELETEOBJ Tripos: deleted a file; a program can't do that here
RENAMEOBJ Tripos: renamed a file; a program can't do that here
DEVICETASK Tripos: found the task of a device by the beginning of a file's name
SPLITNAME Tripos: copied the part of a name up to a sign, and returned the position after it; write it
DATSTAMP Tripos: put the date and the time into a vector; read them from an input
DATSTRING Tripos: put the date and the time as strings into a vector; read them from an input
ENDSTREAM Tripos: closed a stream; ENDREAD and ENDWRITE close the selected one
FINDUPDATE Tripos: opened a file for reading and writing; a file is an input or an output here
POINT Tripos: set the position in a file; streams are read from beginning to end here
NOTE Tripos: returned the position in a file; streams are read from beginning to end here
GETBYTES read bytes of a stream into a vector; write a loop with RDCH
READWORDS read words of a file into a vector; write a loop with RDCH, two bytes to a word
WRITEWORDS wrote words of a vector to a file; write a loop with WRCH, two bytes to a word
BINRDCH read a byte without a change of line ends; RDCH does so here
BINWRCH wrote a byte without a change of line ends; WRCH does so here
BINARYINPUT opened a file of bytes; FINDINPUT does so here
BINARYOUTPUT opened a file of bytes; FINDOUTPUT does so here
CHANGEVEC gave a vector another size; write a routine with GETVEC, FREEVEC and a loop
MAXVEC returned the size of the largest vector that GETVEC could give
STACKSIZE returned how much of the stack was free; write a large number
SAVEREGS a routine of a machine
SYS a call of the system below; write the routine that the number means
LEVEL returned the place on the stack for LONGJUMP; set a flag that each routine checks after a call, or link \
    the text LEVEL of docs/kit.md
LONGJUMP jumped to a label of a routine that was still running; set a flag that each routine checks after a \
    call, or link the text LEVEL of docs/kit.md
APTOVEC called a routine with a vector of any size; declare a vector of the greatest size by VEC, or link the \
    text APTOVEC of docs/kit.md
CREATECO made a coroutine; keep in statics what the routine must remember
DELETECO deleted a coroutine; leave it out
CALLCO went on in a coroutine; call a routine that keeps in statics what it must remember
COWAIT went back to the caller of the coroutine; return, and keep in statics what the routine must remember
RESUMECO went on in another coroutine; call a routine that keeps in statics what it must remember
CALLBYTE BBC: called machine code; write what it did
VDU BBC: sent control codes to the screen; WRCH writes each byte
MODE BBC: set the screen's mode; leave it out
OSBYTE BBC: called the system below; leave it out, or write what it did
OSCLI BBC: gave a command to the system below; leave it out
OPSYS BBC: called the system below; leave it out, or write what it did
WS Alto: wrote a string; write WRITES
WL Alto: wrote a string and a new line; write WRITES, then NEWLINE
PUTTEMPLATE Alto: wrote values by a format; write WRITEF
GETS Alto: Gets(S) read a byte or a word of a stream; write RDCH after SELECTINPUT
PUTS Alto: Puts(S, C) wrote a byte or a word to a stream; write WRCH after SELECTOUTPUT
CALLSWAT Alto: called the debugger with a message; write WRITES, then FINISH
MOVEBLOCK Alto: MoveBlock(TO, FROM, N) copied N words; write a FOR
NUMBARGS Alto: the number of arguments of the call, after NUMARGS in the heading; pass it as an argument
ENDOFS Alto: Endofs(S) told whether a stream is at its end; compare what RDCH gives with ENDSTREAMCH
WNS Alto: Wns(S, N, W, RADIX) wrote a number; write WRITED of EXTHDR after SELECTOUTPUT
DSP Alto: a static, the stream of the display; it is the output that a run begins with
KEYS Alto: a static, the stream of the keyboard; it is the input that a run begins with";

/// What a routine of an old library did, by its name in either case.
pub fn old_routine(name: &[u8]) -> Option<&'static str> {
    for line in ROUTINES.split('\n') {
        if let Some((routine, meaning)) = line.split_once(' ')
            && name.eq_ignore_ascii_case(routine.as_bytes())
        {
            return Some(meaning);
        }
    }
    None
}
