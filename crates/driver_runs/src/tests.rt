mod aborts;
mod cases;
mod commands;
mod play;
mod rounds;
mod turns;
