// What can be typed.
use sentences::write;

pub fn tell() {
    write::text(
        b"\
NAME = VALUE     give a data item a value: 12, -3, 2.5, \"north field\", yes, no, unknown, [12, 3, 15]\n\
run, run 3       run the engine as far as it goes, or so many cycles\n\
confirm NAME     confirm a task\n\
trigger NAME     send a trigger\n\
time 3600        set the engine time, in seconds; time +6 weeks and time -1 day move it\n\
tree             the tasks and their states\n\
asked            the data items that are asked for, and the tasks that wait to be confirmed\n\
rows NAME        what is known of a task or data item\n\
why NAME         why a task has not started, or has not been completed\n\
help, quit       this, and the end\n",
    );
}

// A line that is none of these, from a place on.
pub fn unclear(place: usize) {
    write::text(b"Column ");
    if place < usize::MAX {
        write::number(place + 1);
    }
    write::text(b": this can't be read. What can be typed:\n");
    tell();
}
