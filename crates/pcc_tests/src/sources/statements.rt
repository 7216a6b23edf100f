//! Statements and their least faults.

/// Statements and labels (C99 6.8).
pub const STATEMENTS: &str = "\
25 rows
void v(void){} int main(void){@if(v()) return 1; return 0;} => TypeRule
void v(void){} int main(void){@if(v()) return 1; else return 2;} => TypeRule
void v(void){} int main(void){@while(v()); return 0;} => TypeRule
void v(void){} int main(void){do ; @while(v()); return 0;} => TypeRule
void v(void){} int main(void){@for(;v();); return 0;} => TypeRule
void v(void){} int main(void){@for(int i=0;v();i++); return 0;} => TypeRule
void v(void){} int main(void){@switch(v()){} return 0;} => TypeRule
int main(void){@switch(\"a\"){} return 0;} => PointerUse
int main(void){switch(1){case 1: case 2: ; @case 1: ;} return 0;} => CaseLabel
int main(void){switch(1){default: ; @default: ;} return 0;} => CaseLabel
int main(void){int x; switch(1){@case x: ;} return 0;} => CaseLabel
int main(void){int x; switch(1){@case 1/0: ;} return 0;} => CaseLabel
int main(void){switch(1){case 1||1/0: ; @case 1: ;} return 0;} => CaseLabel
int main(void){switch(1){case @y: ;} return 0;} => Undeclared
int main(void){@break; return 0;} => Jump
int main(void){@continue; return 0;} => Jump
int main(void){switch(1){case 1: @continue;} return 0;} => Jump
int main(void){@return;} => TypeRule
void v(void){@return 1;} int main(void){return 0;} => TypeRule
void v(void){@return v();} int main(void){return 0;} => TypeRule
int main(void){@return \"a\";} => PointerUse
void v(void){} int main(void){@return v();} => TypeRule
int main(void){{int x;} return @x;} => Undeclared
int main(void){for(int i=0;;)break; return @i;} => Undeclared
int f(int a){return a;} int main(void){return @a;} => Undeclared";

/// Two faults, of which one is the least.
pub(crate) const LEAST: &str = "\
2 rows
int main(void){return @y+(1=2);} => Undeclared
int main(void){@return; x;} => TypeRule";
